ghost use Rattle.std.specs.Prelude.{◌≡◌};
ghost use Rattle.check_rules.specs.Codes.{cells_of_all};

use c_core::Object;
use check_rules::Refusal;
use check_scope::Table;
use check_sequencing::Kept;
use wv_base::Seq;

/// What is known so far, while a source is gone through: the names in scope, all objects, the first refusal, and the
/// full expressions that no typed tree holds.
#[derive(Drop)]
pub struct Walk<'a> {
    pub table: Table<'a>,
    pub objects: Seq<Object>,
    pub cells: u64,
    pub best: Option<Refusal>,
    pub kept: Seq<Kept>,
    pub ghost summed: { cells ≡ cells_of_all objects },
}
