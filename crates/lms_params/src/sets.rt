// The parameter sets as types, and the choice of a type by its typecode.

ghost use Rattle.std.specs.Prelude.{◌≡◌, ℕ, ◌+◌, ◌-◌, ◌*◌, ◌/◌, ◌^◌, ◌<◌, ◌≤◌, IsTrue, option_map};
ghost use Rattle.lms_params.specs.Parameters.{is_ots_row, is_width, is_width_and_shift, is_height, ots_row, ots_signature_size, tree_height};

/// A parameter set of LM-OTS (RFC 8554, 4.1, table 1): digits of `W` bits, `P` chains, and a
/// checksum that is shifted left by `LS` bits. It takes no memory; its fields are facts on the row.
#[derive(Clone, Copy, Drop)]
pub struct Ots<const W: u32, const P: usize, const LS: u32> {
    pub ghost row: { IsTrue (is_ots_row W P LS) },
    pub ghost width: { IsTrue (is_width W) },
    pub ghost shift: { IsTrue (is_width_and_shift W LS) },
    pub ghost few: { P ≤ 265 },
    pub ghost narrow: { W ≤ 8 },
    pub ghost covered: { P ≤ 8 / W * 34 },
}

impl<const W: u32, const P: usize, const LS: u32> Ots<W, P, LS> {
    /// The set of a row of the table.
    pub fn new() -> Self
        requires { IsTrue (is_ots_row W P LS) }
    {
        Ots {}
    }

    /// The greatest digit, which is the number of steps of a whole chain.
    pub fn greatest(&self) -> u32
        ensures value { result ≡ 2 ^ W - 1 }
        ensures octet { result < 256 }
    {
        (1 << W) - 1
    }
}

/// A parameter set of LMS (RFC 8554, 5.1, table 2): a tree of height `H`. It takes no memory.
#[derive(Clone, Copy, Drop)]
pub struct Tree<const H: u32> {
    pub ghost height: { IsTrue (is_height H) },
    pub ghost low: { H ≤ 25 },
}

impl<const H: u32> Tree<H> {
    /// The set of a row of the table.
    pub fn new() -> Self
        requires { IsTrue (is_height H) }
    {
        Tree {}
    }

    /// The number of leaves, which is also the number of the first leaf's node.
    pub fn leaves(&self) -> usize
        ensures value { result ≡ 2 ^ H }
        ensures small { result < 2 ^ 26 }
        ensures some { 0 < result }
    {
        1 << H
    }
}

/// Runs a body with the one-time set of a typecode: `with_ots!(code, |set| body)` is `Some` of the
/// body, in which `set` is the [`Ots`] of that code, and `None` for a code outside the table.
#[macro_export]
macro_rules! with_ots {
    ($code:expr, |$set:ident| $body:expr) => {
        match $code {
            1 => {
                let $set = $crate::Ots::<1, 265, 7>::new();
                Some($body)
            }
            2 => {
                let $set = $crate::Ots::<2, 133, 6>::new();
                Some($body)
            }
            3 => {
                let $set = $crate::Ots::<4, 67, 4>::new();
                Some($body)
            }
            4 => {
                let $set = $crate::Ots::<8, 34, 0>::new();
                Some($body)
            }
            _ => None,
        }
    };
}

/// Runs a body with the tree of a typecode: `with_tree!(code, |tree| body)` is `Some` of the body,
/// in which `tree` is the [`Tree`] of that code, and `None` for a code outside the table.
#[macro_export]
macro_rules! with_tree {
    ($code:expr, |$tree:ident| $body:expr) => {
        match $code {
            5 => {
                let $tree = $crate::Tree::<5>::new();
                Some($body)
            }
            6 => {
                let $tree = $crate::Tree::<10>::new();
                Some($body)
            }
            7 => {
                let $tree = $crate::Tree::<15>::new();
                Some($body)
            }
            8 => {
                let $tree = $crate::Tree::<20>::new();
                Some($body)
            }
            9 => {
                let $tree = $crate::Tree::<25>::new();
                Some($body)
            }
            _ => None,
        }
    };
}

// The octets of a signature under a set.
fn size_of<const W: u32, const P: usize, const LS: u32>(_set: Ots<W, P, LS>) -> usize
    ensures { result ≡ 36 + 32 * P }
{
    36 + 32 * P
}

fn height_of<const H: u32>(_tree: Tree<H>) -> u32
    ensures { result ≡ H }
{
    H
}

/// The octets of a one-time signature under an LM-OTS typecode (RFC 8554, 4.5). `None` for a code
/// outside the table.
pub fn ots_signature_size(code: u32) -> Option<usize>
    ensures { result ≡ option_map ots_signature_size (ots_row code) }
{
    with_ots!(code, |set| size_of(set))
}

/// The height of the tree of an LMS typecode (RFC 8554, 5.1, table 2). `None` for a code outside
/// the table.
pub fn tree_height(code: u32) -> Option<u32>
    ensures { result ≡ tree_height code }
{
    with_tree!(code, |tree| height_of(tree))
}
