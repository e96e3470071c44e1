// One list of adds and removes, with every answer that is expected after each.
use lease::registry::Registry;

#[derive(Clone, Copy, PartialEq, Eq, Debug)]
pub enum Call {
    Add(u32),
    Remove(u32),
}

// A call; whether it is refused, with number and place, in numbers as the rules give them; then the answers to the three questions: how many
// leases are open at the call's time, how many in all, and the least open time at or above the call's time.
#[derive(Clone, Copy, PartialEq, Eq, Debug)]
pub struct Step {
    pub call: Call,
    pub refused: Option<(u8, u32)>,
    pub there: u32,
    pub in_all: u32,
    pub least: Option<u32>,
}

// What a registry answers to a call and then to the three questions.
pub fn answer<R: Registry>(registry: &mut R, call: Call) -> Step {
    let (time, result) = match call {
        Call::Add(time) => (time, registry.add(time)),
        Call::Remove(time) => (time, registry.remove(time)),
    };
    let refused = result.err().map(|fault| (fault.number(), fault.place));
    Step {
        call,
        refused,
        there: registry.count_at(time),
        in_all: registry.total(),
        least: registry.least_from(time),
    }
}
