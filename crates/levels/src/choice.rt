// The choice of a requester, for every kind of requester.
ghost use Rattle.std.specs.Prelude.{◌≡◌, ℕ, Bool, ◌&&◌};
ghost use Rattle.levels.specs.Choice.{behind as lies_behind, first_behind, Chosen};

use crate::state::LevelWish;

pub trait Requester {
    ghost place: { Self → ℕ };

    ghost wish: { Self → Bool };

    fn rank(&self) -> usize
        ensures { result ≡ place self.now };

    fn wishes(&self) -> bool
        ensures { result ≡ wish self.now };
}

fn stands_behind<R: Requester>(requester: &R, behind: Option<usize>) -> bool
    ensures { result ≡ (lies_behind behind (R.Requester.place requester.now) && R.Requester.wish requester.now) }
{
    behind.is_none_or(|rank| requester.rank() > rank) && requester.wishes()
}

// The place in the list of the first requester that wishes and whose rank is behind the given one, or none.
pub fn first_behind<R: Requester>(list: &[R], behind: Option<usize>) -> Option<usize>
    ensures value { result ≡ first_behind R.Requester.place R.Requester.wish behind list.now }
    ensures chosen { Chosen (λ x. lies_behind behind (R.Requester.place x) && R.Requester.wish x) list.now result }
{
    list.iter()
        .position(|requester| stands_behind(requester, behind))
}

// A record of its own, beside that of the channels: one function takes a lent slice of either, as the project's rules name it.
impl Requester for LevelWish {
    ghost place = { λ w. w.level };

    ghost wish = { λ w. w.wish };

    fn rank(&self) -> usize {
        self.level
    }

    fn wishes(&self) -> bool {
        self.wish
    }
}
