//! The semantic type of a cell: what a program wrote, what a user typed, or a prompt.
#[derive(Clone, Copy, PartialEq, Eq, Debug)]
pub enum SemanticType {
    Output = 0,
    Input = 1,
    Prompt = 2,
}
