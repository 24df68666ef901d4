// An auditor at its feeds.
use auditor::auditors::Auditor;

// An auditor, and the feeds that it draws on.
#[derive(Drop)]
pub(crate) struct Post<'a, R> {
    pub auditor: Auditor,
    pub feeds: &'a mut R,
}
