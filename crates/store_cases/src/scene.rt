// A scene: calls with their expected outcomes, on a new store of fields.
use fields::{Attributes, Fields, Patch};
use history::call::{Call, Outcome};
use lease::fault::Layer;
use lease::registry::Registry;
use run::journal::run;
use run::turn::Turn;
use std::alloc::{AllocError, Global};
use store::making::Fresh;
use store::sizes::Sizes;

// What must come of a call: its answer, or a refusal's number, layer and place, as the rules give them, so that they are tested too.
type Due = Result<Outcome<Attributes>, (u8, Layer, u64)>;

// A call, and what must come of it.
#[derive(Clone, Copy)]
pub struct Expected {
    pub call: Call<Patch>,
    pub due: Due,
}

// A call with its expected answer.
pub fn x(call: Call<Patch>, outcome: Outcome<Attributes>) -> Expected {
    Expected {
        call,
        due: Ok(outcome),
    }
}

// A call that the store itself must refuse.
pub fn by_store(call: Call<Patch>, number: u8, place: u64) -> Expected {
    Expected {
        call,
        due: Err((number, Layer::Store, place)),
    }
}

// A call that the registry must refuse.
pub fn by_registry(call: Call<Patch>, number: u8, place: u64) -> Expected {
    Expected {
        call,
        due: Err((number, Layer::Registry, place)),
    }
}

// Sets attribute 3 of a record.
pub fn set3(writer: u32, record: u64, value: u32) -> Call<Patch> {
    let patch = Patch {
        mask: 8,
        values: [0, 0, 0, value, 0, 0, 0, 0],
    };
    Call::Change(writer, record, patch)
}

// A row with this in attribute 3, and zero elsewhere.
pub fn row3(value: u32) -> Outcome<Attributes> {
    Outcome::Shown(Attributes {
        values: [0, 0, 0, value, 0, 0, 0, 0],
    })
}

// What came of a call, with a refusal by its number, layer and place.
fn told(outcome: Outcome<Attributes>) -> Due {
    match outcome {
        Outcome::Refused(fault) => Err((fault.number(), fault.layer(), fault.place)),
        answer => Ok(answer),
    }
}

// Plays a scene on a new store with an empty registry: how many of the outcomes are the expected ones, from the first on.
pub fn play<R: Registry + Drop>(
    heap: Global,
    sizes: Sizes,
    scene: &[Expected],
    list: &mut [u32],
) -> Result<usize, AllocError> {
    let mut journal = Vec::new(heap);
    for expected in scene {
        let turn: Turn<Patch, Attributes> = Turn::of(expected.call);
        journal.push(turn)?;
    }
    let fresh: Fresh<Fields> = Fresh::make(heap, sizes)?;
    let (_store, _registry) = run::<Fields, R>(fresh, &mut journal, list);
    let met = journal
        .iter()
        .zip(scene.iter())
        .take_while(|(turn, expected)| told(turn.outcome) == expected.due);
    Ok(met.count())
}
