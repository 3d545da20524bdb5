// Where a walk over the nodes of a tree is.
ghost use Rattle.std.specs.Prelude.{◌≡◌, ◌<◌};
ghost use Rattle.walks.specs.steps.Stacks as Stacks;

// Where a walk is: at the root of a subtree that is to be visited, with so many to come, this one included. The roots
// of the others are on the walk's stack, the next one at place `height - 1`; place 0 has the number of nodes. It is no
// struct with the stack: each step gives back a new place, and writes the stack only where the left child is entered.
// `height` says how many subtrees are to come. At the end that is 0, a number like the others: no `Option` of a place.
#[derive(Clone, Copy)]
pub struct Place {
    pub node: usize,
    pub height: usize,
}

// One more, or not.
pub fn raised(count: usize, more: bool) -> usize
    requires { count < 32 }
    ensures { result ≡ Stacks.raised count more }
{
    count + usize::from(more)
}

// The place after all that is below this one.
pub fn popped(stack: &[usize; 32], at: Place) -> Place
    requires { (0 < at.height) × (at.height < 33) }
    ensures { result ≡ Stacks.popped stack.now at }
{
    let k = at.height - 1;
    Place {
        node: stack[k],
        height: k,
    }
}

// The place after an inner node: the left child, the right one, or what comes after both, as their boxes passed.
// Whether a child passed stands beside it. An `Option` of the right one would not do: before the left one is entered
// the right one is stored, and that also where it did not pass. The left one is lent as the right one is.
pub fn advance(
    stack: &mut [usize; 32],
    at: Place,
    left: usize,
    right: usize,
    enters: bool,
    follows: bool,
) -> Place
    requires { (0 < at.height) × (at.height < 32) }
    ensures { (result ≡ Stacks.advanced stack.old at left right enters follows) × (stack.new ≡ Stacks.pushed stack.old at right enters) }
{
    if enters {
        let k = at.height;
        stack[k] = right;
        return Place {
            node: left,
            height: raised(k, follows),
        };
    }
    if follows {
        return Place {
            node: right,
            height: at.height,
        };
    }
    popped(stack, at)
}
