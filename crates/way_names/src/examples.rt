// Worked programs, and the names that are visible at their places.
ghost use Rattle.way_names.specs.WorkedNames.{WorkedNames};

fn worked_names()
    ensures { WorkedNames }
{}
