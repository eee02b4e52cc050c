// Lint 1: sentences that an earlier one without conditions shadows.
ghost use Rattle.std.specs.Prelude.{[], ◌≡◌, ◌+◌, ◌≤◌, ◌<◌, IfSome};
ghost use Rattle.file.specs.Sections.{file_of};
ghost use Rattle.sentences.specs.Entry.{pattern_in};
ghost use Rattle.lints.specs.Dead.{earliest};
ghost use Rattle.lints.specs.Code.Records.{earlier_at, earliest_from};

use law::AcceptedLaw;
use sentences::sentence_shadows;

// The number from 1 of the earliest of so many sentences from `first` on that has no conditions and shadows the sentence after them. The search is
// the loop of document 01, "The listing": it goes over the earlier sentences and yields the number by break.
pub fn earliest_shadow(accepted: &AcceptedLaw, first: usize, later: usize) -> Option<usize>
    requires { first + later < (file_of accepted.now.law.bytes.now).sentences.count }
    ensures { (earliest_from result ≡ earliest [] (earlier_at (file_of accepted.now.law.bytes.now) first later)
        (pattern_in (file_of accepted.now.law.bytes.now) (first + later))) × IfSome result (λ n. n ≤ later) }
{
    let law = &accepted.law;
    let mut i = 0;
    loop {
        if later <= i {
            break None;
        }
        let s = first + i;
        let conditions = law.first_condition(s + 1) - law.first_condition(s);
        if conditions == 0 && sentence_shadows(accepted, s, first + later) {
            break Some(i + 1);
        }
        i += 1;
    }
}
