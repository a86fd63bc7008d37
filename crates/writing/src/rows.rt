// A layout by its place in the table. What each function over a layout needs of the place stands here once.
ghost use Rattle.std.specs.Prelude.{◌≡◌, ◌<◌, ◌≤◌};
ghost use Rattle.tables.specs.Tables.{kind_digit, layout_count, subfield_count, layout_at, subfield_at};

use tables::{LayoutRow, layout_at, subfield_at};

#[derive(Clone, Copy)]
pub struct Layout {
    pub place: usize,
    pub ghost inside: { place < layout_count },
}

impl Layout {
    pub fn row(self) -> LayoutRow
        ensures { result ≡ layout_at self.place }
    {
        layout_at(self.place)
    }
}

// That of a subfield: it has none, one part, or a list of parts.
#[derive(Clone, Copy)]
pub struct Subfield {
    pub layout: Layout,
    pub ghost plain: { kind_digit (layout_at layout.place).kind ≤ 2 },
}

impl Subfield {
    // By its bit's place in the table.
    pub fn of(bit: usize) -> Subfield
        requires { bit < subfield_count }
        ensures { result.layout.place ≡ subfield_at bit }
    {
        Subfield {
            layout: Layout {
                place: subfield_at(bit),
            },
        }
    }
}
