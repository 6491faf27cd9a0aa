// Laws, each the contract of a function without a body.
ghost use Rattle.check_unsequenced.specs.Agreement.{EffectsAgree, ExpressionsAgree, InitializersAgree};
ghost use Rattle.check_unsequenced.specs.PartsFound.{TestsAgree};

/// The order rule of the parts of a source is that of its typed trees.
pub fn typed_trees_keep_order()
    ensures effects { EffectsAgree }
    ensures expressions { ExpressionsAgree }
    ensures initializers { InitializersAgree }
{}

/// The tests of typed trees find exactly what is unordered among the parts of a source; they are put together as the
/// parts are.
pub fn tests_find_unordered_parts()
    ensures { TestsAgree }
{}
