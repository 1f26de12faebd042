//! How all passes of a store come to have seen the same history. Only contracts need this: a
//! meeting is a load that changes nothing.
ghost use Rattle.std.specs.Prelude.{◌≡◌};
ghost use Rattle.lrup_model.specs.Pass.{SyncInTurn, AreSynced, IsFair};
ghost use Rattle.clause_store.specs.Passes.{store_of, views, AreOf, ShareHistory};

use crate::pass::Pass;
use crate::store::Store;

impl Store {
    /// Lets all passes share what they have seen: the first pass meets each of the others in turn,
    /// and then each again. Afterwards all have seen the same history, which begins with what each
    /// had seen before. The call is not an event.
    #[tactic(auto, using(crate::proofs::MeetingLemmas::rounds_next, crate::proofs::MeetingLemmas::synced_in_rounds, crate::proofs::MeetingLemmas::one_in_rounds))]
    pub fn meet_all(&self, passes: &mut [Pass])
        requires { AreOf self.now passes.old }
        ensures store { AreOf self.now passes.new }
        ensures synced { AreSynced (views passes.old) (views passes.new) }
        ensures one { ShareHistory (views passes.new) }
    {
        let Some((first, others)) = passes.split_first_mut() else {
            return;
        };
        // After the first round, the first pass has seen all that any pass has seen; the second
        // round shares this with all the others.
        for _round in 0..2u32 {
            self.meet_each(first, others);
        }
    }

    /// Lets the pass meet each of the others in turn.
    fn meet_each(&self, pass: &mut Pass, others: &mut [Pass])
        requires pass { store_of pass.old ≡ self.now }
        requires others { AreOf self.now others.old }
        ensures pass { store_of pass.new ≡ self.now }
        ensures others { AreOf self.now others.new }
        ensures turns { SyncInTurn pass.old.view (views others.old) pass.new.view
            (views others.new) }
        ensures fair { IsFair pass.new.view }
    {
        for other in others.iter_mut() {
            self.meet(pass, other);
        }
        // For the proof only: the contract of `stream` says that the pass is fair, which no other
        // call says if `others` is empty.
        let _ = pass.stream();
    }
}
