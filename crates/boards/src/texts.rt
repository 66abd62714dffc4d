//! The text of a row on a board.
ghost use Rattle.std.specs.Prelude.{◌≡◌, IfOk};
ghost use Rattle.boards.specs.Boards.{board_text};

use std::alloc::{AllocError, Global};
use std::iter::repeat_n;
use stores::reader::Reader;
use stores::store::Store;

/// The texts of a row's cells, filled up with spaces to a width.
pub fn board_text<S: Store>(heap: Global, row: &S, width: usize) -> Result<Vec<u8>, AllocError>
    ensures { IfOk result (λ v. v.items ≡ board_text width (S.Store.row row.now).cells) }
{
    let mut text = Vec::new(heap);
    let mut buffer = [0; 7];
    for cell in Reader::new(row) {
        text.extend_from_slice(cell.text.read(&mut buffer))?;
    }
    text.extend(repeat_n(b' ', width.saturating_sub(row.len())))?;
    Ok(text)
}
