// Laws of the definitions, each the contract of a function that does nothing.
ghost use Rattle.std.specs.Prelude.{◌≡◌, Ok};
ghost use Rattle.wv_schema.specs.declared.witness.Witness.{Witness};
ghost use Rattle.wv_schema.specs.Canonical.{tree_of};
ghost use Rattle.wv_schema.specs.Schema.{witness_of};
ghost use Rattle.wv_schema.specs.Rules.{MeetsSchema};

/// A witness that meets the schema is read from its tree as it was.
pub fn written_witnesses_are_read()
    ensures { (v : Witness) → MeetsSchema v → witness_of (tree_of v) ≡ Ok v }
{}
