// Worked programs: what the invariant says of them, and where their places are.
ghost use Rattle.meaning_examples.specs.JudgedPrograms.{JudgedPrograms};
ghost use Rattle.meaning_examples.specs.WorkedPlaces.{WorkedPlaces};

fn judged_programs()
    ensures { JudgedPrograms }
{}

fn worked_places()
    ensures { WorkedPlaces }
{}
