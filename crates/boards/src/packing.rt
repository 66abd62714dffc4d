//! A row's cells put into a store.
ghost use Rattle.std.specs.Prelude.{◌≡◌, []};
ghost use Rattle.cells.specs.Refusals.{verdict};
ghost use Rattle.rows.specs.Packing.{compaction};
ghost use Rattle.rows.specs.Rows.{unless};

use cells::refusal::Refusal;
use splitters::splitter::Splitter;
use stores::reader::Reader;
use stores::store::Store;

/// Empties a store and puts a row's cells into it: the first refused cell's refusal, and then the store is empty.
pub fn pack<S: Store, T: Store<Attr = S::Attr, Split = S::Split>>(
    row: &S,
    store: &mut T,
) -> Result<(), Refusal>
    ensures answer { result ≡ verdict (compaction S.Split.splits (T.Store.rule (T.Store.row store.old).sizes) (S.Store.row row.now).cells) tt }
    ensures cells { (T.Store.row store.new).cells
        ≡ unless (compaction S.Split.splits (T.Store.rule (T.Store.row store.old).sizes) (S.Store.row row.now).cells) [] (S.Store.row row.now).cells }
    ensures change { T.Store.number store.new ≡ T.Store.number store.old }
    ensures sizes { (T.Store.row store.new).sizes ≡ (T.Store.row store.old).sizes }
{
    store.clear();
    for cell in Reader::new(row) {
        if let Err(why) = store.take(&cell) {
            store.clear();
            return Err(why);
        }
    }
    Ok(())
}
