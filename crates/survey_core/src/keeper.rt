//! Where the tables of a survey are kept.
ghost use Rattle.std.specs.Prelude.{◌≡◌, ◌≤◌, ◌*◌, ◌^◌, ℕ, List, length, map, IfOk, OnOk, OnErr, IfSome, is_some};
ghost use Rattle.std.specs.declared.option.Option.{Option};
ghost use Rattle.std.specs.Option.{option_map};
ghost use Rattle.fits_write.specs.CatalogueColumns.{cells_in_row};
ghost use Rattle.survey_core.specs.Catalogues.{most_rows};
ghost use Rattle.survey_core.specs.Tables.{Table, IsNumbered, AreTables, cells_of_field, put, without_field, names_of};
ghost use Rattle.survey_core.specs.Clauses.{Becomes, Stays, HasFault};

use crate::Field;
use std::alloc::Global;

/// Why a call changed nothing.
#[derive(Clone, Copy, Debug, PartialEq, Eq)]
pub enum Refused {
    /// The keeper failed: its count of faults has risen, or stands at its last value, 2^64 - 1.
    Fault,
    OutOfMemory,
}

/// A place for the cells of the catalogues, field by field. Where `tables` is told at one moment it is told at all later ones.
pub trait Keeper {
    /// The cells of each field, in the order of the fields, where they are told.
    ghost tables: { Self → Option (List Table) };

    /// How often the keeper has failed.
    ghost faults: { Self → ℕ };

    /// Gives the field these cells, in place of any that it has.
    fn replace(&mut self, alloc: Global, field: Field, cells: &[i64]) -> Result<(), Refused>
        requires numbered { IsNumbered cells.now }
        requires few { length cells.now ≤ cells_in_row * most_rows }
        ensures done { OnOk result
            (Becomes (tables self.old) (tables self.new) (put field cells.now)) }
        ensures kept { OnErr result (Stays (tables self.old) (tables self.new)) }
        ensures cause { HasFault (faults self.old) (faults self.new) result };

    /// Takes the field out, and answers whether it was there.
    fn remove(&mut self, alloc: Global, field: Field) -> Result<bool, Refused>
        ensures done { OnOk result
            (Becomes (tables self.old) (tables self.new) (without_field field)) }
        ensures found { IfOk result
            (λ found. IfSome (tables self.old)
            (λ tables. found ≡ is_some (cells_of_field field tables))) }
        ensures kept { OnErr result (Stays (tables self.old) (tables self.new)) }
        ensures cause { HasFault (faults self.old) (faults self.new) result };

    /// The fields, in order.
    fn names(&mut self, alloc: Global) -> Result<Vec<Field>, Refused>
        ensures names { IfOk result
            (λ fields. IfSome (tables self.old) (λ tables. fields.items ≡ names_of tables)) }
        ensures kept { Stays (tables self.old) (tables self.new) }
        ensures cause { HasFault (faults self.old) (faults self.new) result };

    /// The cells of the field, if it is there.
    fn rows(&mut self, alloc: Global, field: Field) -> Result<Option<Vec<i64>>, Refused>
        ensures rows { IfOk result
            (λ rows. IfSome (tables self.old)
            (λ tables. option_map (λ cells. cells.items) rows ≡ cells_of_field field tables)) }
        ensures kept { Stays (tables self.old) (tables self.new) }
        ensures cause { HasFault (faults self.old) (faults self.new) result };

    /// The fields rise, and the rows of each are numbered from 1.
    ghost tables_are: { (k : Self) → IfSome (tables k) AreTables };
}
