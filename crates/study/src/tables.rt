// What a study keeps beside the parts that go by value.
use state::Rows;

#[repr(C)]
#[derive(Clone, Copy)]
pub(crate) struct Tables {
    // the trees still to come, `branch.height` of them, each with its frequency and the branchings above it: no Vec, since the desk keeps nothing on a heap
    pub(crate) stack: [u64; 9],
    // for each target its sum, its margin, and its facts with its mark on the domino list
    pub(crate) rows: Rows,
}
