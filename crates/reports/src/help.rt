//! The help text.
pub const HELP: &str = "panel: gauges rows of text against the displays of a junction cabinet

Give the rows on standard input, a row to a line. For each line the panel prints
its columns, its cells, how many controls became blanks, and whether it fits the
door display (40 columns) and the laptop (80 columns) or by how much it passes;
and then the row, without blanks at its end, filled up to the display that it
fits, with its change number, and what it takes packed for history, in runs of
equal attributes and bytes of text, or why it cannot be packed. A line that
cannot be a row is named with the number of its refusal and a sentence. An
account of all lines follows.

  --help   print this and read nothing";
