// The reorder that begins Figure 4.8, and its undoing: coefficient k goes to the place in entry k (01, "One block").
ghost use Rattle.std.specs.Prelude.{◌≡◌, ◌<◌};

pub const INVERSE_REORDER: [usize; 16] = [0, 8, 4, 13, 2, 15, 3, 14, 1, 12, 5, 9, 7, 11, 6, 10];

pub const FORWARD_REORDER: [usize; 16] = [0, 8, 4, 6, 2, 10, 14, 12, 1, 11, 15, 13, 9, 3, 7, 5];

// The forward table undoes the inverse table. Nothing calls this or the next function: they are there to be proved.
pub fn forward_after_inverse(k: usize) -> usize
    requires { k < 16 }
    ensures { result ≡ k }
{
    FORWARD_REORDER[INVERSE_REORDER[k]]
}

// And the inverse table undoes the forward table.
pub fn inverse_after_forward(k: usize) -> usize
    requires { k < 16 }
    ensures { result ≡ k }
{
    INVERSE_REORDER[FORWARD_REORDER[k]]
}
