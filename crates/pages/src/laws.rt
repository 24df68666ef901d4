// What holds of columns and pages. Each function stands for the law that its contract states.
ghost use Rattle.pages.specs.Laws.{ColumnLaws, VerdictPageLaws, SheetPageSize, WorkedRows};

// A column has its width, and a number that fits stands right-aligned behind blanks.
pub fn columns_align()
    ensures { ColumnLaws }
{}

// A verdict page has 15 bytes for each rule, and its rows are those of the rules in order.
pub fn verdict_rows_stand()
    ensures { VerdictPageLaws }
{}

// A sheet page has 78 bytes for each open entry.
pub fn sheet_rows_stand()
    ensures { SheetPageSize }
{}

// The worked rows come out as written.
pub fn worked_rows()
    ensures { WorkedRows }
{}
