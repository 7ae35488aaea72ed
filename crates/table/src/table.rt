// A table in lent work words.
ghost use Rattle.std.specs.Option.{ForSome};
ghost use Rattle.rows.specs.Layout.{Tidy};
ghost use Rattle.rows.specs.View.{raw};
ghost use Rattle.table.specs.Reached.{Reached};

use rows::Rows;
use rows::problem::Load;

pub mod calls;
pub mod finish;
pub mod shift;

// The rows, and what was loaded into them, if anything was.
#[derive(Drop)]
pub struct Table<'a> {
    rows: Rows<'a>,
    load: Option<Load>,
    ghost tidy: { Tidy (raw rows) },
    ghost reached: { ForSome load (λ l. ∥ Reached l (raw rows) ∥₁) },
}
