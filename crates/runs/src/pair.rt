// Two auditors.
use auditor::auditors::Auditor;

#[derive(Drop)]
pub struct Pair {
    pub first: Auditor,
    pub second: Auditor,
}
