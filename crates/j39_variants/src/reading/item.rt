//! The arrays of a plan whose elements go with alternatives.
ghost use Rattle.std.specs.Prelude.{◌≡◌};

use j39_plan::Table;

/// What may be there with some alternatives alone.
#[derive(Clone, Copy)]
pub enum ListedItem {
    Unit,
    Group,
    Flow,
    Need,
    Request,
}

impl ListedItem {
    ghost use Rattle.j39_variants.specs.ListTables.{item_table};

    /// The table of the element of a place.
    pub fn table(self, index: usize) -> Table
        ensures { result ≡ item_table self index }
    {
        match self {
            ListedItem::Unit => Table::Unit(index),
            ListedItem::Group => Table::Group(index),
            ListedItem::Flow => Table::Flow(index),
            ListedItem::Need => Table::Need(index),
            ListedItem::Request => Table::Request(index),
        }
    }
}
