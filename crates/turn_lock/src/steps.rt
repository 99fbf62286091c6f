// The steps of the lock, on its words and its slot.
ghost use Rattle.std.specs.Prelude.{◌≡◌, ◌≢◌, ℕ, ◌+◌, ◌^◌, ◌<◌, ◌≤◌, true, [], ◌∷◌, ◌++◌, length};
ghost use mathlib.Core.List.{IsPrefix};
ghost use Rattle.turn_lock.specs.Steps.{is_idle, is_told, note_holder, maker_holder, made_holder, gathering_holder, Begins, HasEnded, HasHeard};

use crate::chain::Link;
use crate::holder::{
    FinishTurn, GatherSeat, LearnNote, LookAtServed, MakeNote, MakeSeat, Place, TakeTicket,
    TellAside, Words,
};
use crate::turn::{Logged, Turn};
use std::sync::Wait;
use std::thread;

// Waits for its ticket, takes the state out, takes the turn, brings the state home and ends the turn. It answers the entry's index too.
pub(crate) fn take_turn<T: Logged, J: Turn<T>, R: Wait>(
    rt: &R,
    words: &Words<T, T::Entry>,
    place: &mut Place<T, T::Entry>,
    link: Link<T::Entry>,
    turn: J,
) -> (J::Answer, u64)
    requires table { (words.now.table_id.words ≡ 2) × (words.now.table_id.slots ≡ 1) }
    requires place { (place.old.table_id ≡ words.now.table_id) × (place.old.me.1 ≡ []) × (is_idle place.old.me.0 ≡ true) }
    requires session { J.session turn ≡ place.old.me.0.session }
    ensures place { (place.new.table_id ≡ place.old.table_id) × (place.new.me.1 ≡ []) }
    ensures ended { HasEnded T.log T.session_of T.lawful (J.gives turn) result.0 result.1 place.old.me.0 place.new.me.0 }
{
    let ticket = wait_turn(rt, words, place);
    let Some(mut state) = words.exchange(place, 0, None) else {
        unreachable!()
    };
    let answer = turn.go(&mut state, link);
    let left = words.exchange(place, 0, Some(state));
    let None = left else { unreachable!() };
    words.fetch_add::<FinishTurn>(place, 1, 1);
    (answer, ticket)
}

// A turn from 2^62 on never comes.
fn wait_turn<T: Logged, R: Wait>(
    rt: &R,
    words: &Words<T, T::Entry>,
    place: &mut Place<T, T::Entry>,
) -> u64
    requires table { (words.now.table_id.words ≡ 2) × (words.now.table_id.slots ≡ 1) }
    requires place { (place.old.table_id ≡ words.now.table_id) × (place.old.me.1 ≡ []) × (is_idle place.old.me.0 ≡ true) }
    ensures place { place.new.table_id ≡ place.old.table_id }
    ensures begins { (result < 2 ^ 62) × Begins T.log T.session_of T.lawful result place.old.me.0 place.new.me }
{
    let ticket = words.fetch_add::<TakeTicket>(place, 0, 1);
    for _ in rt.forever() {
        if ticket < 1 << 62 && words.load::<LookAtServed>(place, 1) == ticket {
            return ticket;
        }
        thread::yield_now();
    }
    unreachable!()
}

pub(crate) fn make_note<T: Logged>(
    words: &Words<T, T::Entry>,
    place: &mut Place<T, T::Entry>,
) -> Place<T, T::Entry>
    requires table { (words.now.table_id.words ≡ 2) × (words.now.table_id.slots ≡ 1) }
    requires place { (place.old.table_id ≡ words.now.table_id) × (place.old.me.1 ≡ []) × (is_idle place.old.me.0 ≡ true) }
    ensures same { (place.new.table_id ≡ place.old.table_id) × (place.new.me ≡ place.old.me) }
    ensures note { (result.table_id ≡ place.old.table_id) × (result.me ≡ (note_holder place.old.me.0, [])) }
{
    words.split_seat::<MakeNote>(place)
}

pub(crate) fn learn_note<T: Logged>(
    words: &Words<T, T::Entry>,
    place: &mut Place<T, T::Entry>,
    note: Place<T, T::Entry>,
)
    requires table { (words.now.table_id.words ≡ 2) × (words.now.table_id.slots ≡ 1) }
    requires place { (place.old.table_id ≡ words.now.table_id) × (place.old.me.1 ≡ []) × (is_idle place.old.me.0 ≡ true) }
    requires note { (note.table_id ≡ words.now.table_id) × (note.me.1 ≡ []) × (is_told note.me.0 ≡ true) }
    ensures place { (place.new.table_id ≡ place.old.table_id) × (place.new.me.1 ≡ []) }
    ensures heard { HasHeard note.me.0 place.old.me.0 place.new.me.0 }
{
    words.join_seat::<LearnNote>(place, note);
    words.load::<TellAside>(place, 0);
}

// Another seat, of the next session.
pub(crate) fn make_seat<T: Logged>(
    words: &Words<T, T::Entry>,
    maker: &mut Place<T, T::Entry>,
) -> Place<T, T::Entry>
    requires table { (words.now.table_id.words ≡ 2) × (words.now.table_id.slots ≡ 1) }
    requires maker { (maker.old.table_id ≡ words.now.table_id) × (maker.old.me.1 ≡ []) × (is_idle maker.old.me.0 ≡ true) }
    requires more { (maker.old.me.0.sessions ≢ 0) × (1 < maker.old.me.0.parts) }
    ensures maker { (maker.new.table_id ≡ maker.old.table_id) × (maker.new.me ≡ (maker_holder maker.old.me.0, [])) }
    ensures made { (result.table_id ≡ maker.old.table_id) × (result.me ≡ (made_holder maker.old.me.0, [])) }
{
    words.split_seat::<MakeSeat>(maker)
}

// The leader takes in another seat.
pub(crate) fn gather_seat<T: Logged>(
    words: &Words<T, T::Entry>,
    leader: &mut Place<T, T::Entry>,
    seat: Place<T, T::Entry>,
)
    requires table { (words.now.table_id.words ≡ 2) × (words.now.table_id.slots ≡ 1) }
    requires leader { (leader.old.table_id ≡ words.now.table_id) × (leader.old.me.1 ≡ []) × (is_idle leader.old.me.0 ≡ true) }
    requires seat { (seat.table_id ≡ words.now.table_id) × (seat.me.1 ≡ []) × (is_idle seat.me.0 ≡ true) }
    ensures { (leader.new.table_id ≡ leader.old.table_id) × (leader.new.me ≡ (gathering_holder leader.old.me.0 seat.me.0, [])) }
{
    words.join_seat::<GatherSeat>(leader, seat);
}
