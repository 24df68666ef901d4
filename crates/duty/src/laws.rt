// What holds of verdicts and sheets on every log. Each function stands for the law that its contract states.
ghost use Rattle.duty.specs.Worked.{WorkedLogs};
ghost use Rattle.duty.specs.Joins.{JoinLaws};
ghost use Rattle.duty.specs.Final.{Finality};
ghost use Rattle.duty.specs.Letters.{LettersStay};
ghost use Rattle.duty.specs.Facts.{SheetFacts};
ghost use Rattle.duty.specs.Steps.{StepsRight};
ghost use Rattle.duty.specs.Untouched.{UntouchedStays};

// The worked logs come out as told.
pub fn worked_logs()
    ensures { WorkedLogs }
{}

// Verdicts may be joined in any order.
pub fn joins_regroup()
    ensures { JoinLaws }
{}

// A verdict that is given stays.
pub fn verdicts_stay()
    ensures { Finality }
{}

// A duty keeps the letters of its opening, and nothing outside it has them.
pub fn letters_stay()
    ensures { LettersStay }
{}

// A rule has entries exactly while it is pending, within its nodes and its depth.
pub fn sheets_stand()
    ensures { SheetFacts }
{}

// What is open of a rule is enough to go on by a line.
pub fn lines_step()
    ensures { StepsRight }
{}

// A line that no pattern of a rule matches changes nothing of it.
pub fn untouched_stay()
    ensures { UntouchedStays }
{}
