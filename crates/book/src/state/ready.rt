// A job that can go on to its end.
ghost use Rattle.std.specs.Prelude.{◌≡◌, []};
ghost use Rattle.book.specs.Ready.{is_free, Ready};
ghost use Rattle.book.specs.View.{view};

use super::Book;
use holders::waits_of;

impl Book {
    // Whether a job runs there and waits for none.
    fn is_free(&self, place: u8) -> bool
        ensures { result ≡ is_free (view [] self.now) place }
    {
        self.job(place.into()).is_some() && waits_of(self.holdings.in_use(), place).is_empty()
    }

    // A running job that waits for none; none where no job runs. The contract leaves open which; this answers the one at the lowest place.
    pub fn ready(&self) -> Option<u8>
        ensures { Ready (view [] self.now) result }
    {
        (0..16u8).find(|place| self.is_free(*place))
    }
}
