// Laws of the definitions, each the contract of a function that does nothing.
ghost use Rattle.std.specs.Prelude.{◌≡◌, IsTrue, ℤ};
ghost use Rattle.c_core.specs.Types.{in_range, fit, promote_of, IsPromoted, IsWithin};
ghost use Rattle.c_core.specs.declared.number.DataModel.{DataModel};
ghost use Rattle.c_core.specs.declared.number.IntType.{IntType};

/// A conversion leads into the type and leaves its values alone; so done twice it is done once.
pub fn conversions_settle()
    ensures in_range { (m : DataModel) (ty : IntType) (v : ℤ) → IsTrue (in_range m ty (fit m ty v)) }
    ensures kept { (m : DataModel) (ty : IntType) (v : ℤ) → IsTrue (in_range m ty v) → fit m ty v ≡ v }
    ensures again { (m : DataModel) (ty : IntType) (v : ℤ) → fit m ty (fit m ty v) ≡ fit m ty v }
{}

/// A conversion to a type that holds all values of the old one keeps the number, and promotion is
/// such a conversion.
pub fn wider_types_keep()
    ensures in_range { (m : DataModel) (s t : IntType) (v : ℤ) → IsWithin m s t → IsTrue (in_range m s v)
        → IsTrue (in_range m t v) }
    ensures kept { (m : DataModel) (s t : IntType) (v : ℤ) → IsWithin m s t → IsTrue (in_range m s v) → fit m t v ≡ v }
    ensures promotion { (m : DataModel) (ty : IntType) → IsWithin m ty (promote_of ty) }
    ensures promoted { (ty : IntType) → IsPromoted (promote_of ty) }
{}
