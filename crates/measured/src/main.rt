// Notes some measured senders, and prints each answer, some places, and the bound of every stream.
#![tactic(auto)]

use bus::traffic::Traffic;
use engine::bound::bound;
use sheet::sender::Sender;
use sheet::sheet::Sheet;
use std::io;

const SENDERS: [Sender; 10] = [
    // arrivals in pairs
    Sender {
        node: 1,
        identifier: 16,
        bytes: 2,
        jitter: 0,
        spans: [100, 600, 700, 1_200, 1_300, 1_800, 1_900],
    },
    Sender {
        node: 2,
        identifier: 25,
        bytes: 8,
        jitter: 30,
        spans: [1_000, 2_000, 3_000, 4_000, 5_000, 6_000, 7_000],
    },
    // an identifier that is held
    Sender {
        node: 3,
        identifier: 25,
        bytes: 4,
        jitter: 0,
        spans: [3_000, 6_000, 9_000, 12_000, 15_000, 18_000, 21_000],
    },
    // a jitter above the first spans
    Sender {
        node: 1,
        identifier: 40,
        bytes: 0,
        jitter: 1_450,
        spans: [600, 1_200, 1_800, 2_400, 3_000, 3_600, 4_200],
    },
    // spans that do not rise
    Sender {
        node: 3,
        identifier: 300,
        bytes: 4,
        jitter: 0,
        spans: [900, 901, 901, 903, 904, 905, 8_388_608],
    },
    // a burst, and then none for long
    Sender {
        node: 3,
        identifier: 300,
        bytes: 4,
        jitter: 0,
        spans: [900, 901, 902, 903, 904, 905, 8_388_608],
    },
    // neither identifier nor node is in its range: the lower number is told
    Sender {
        node: 16,
        identifier: 2_048,
        bytes: 4,
        jitter: 0,
        spans: [3_000, 6_000, 9_000, 12_000, 15_000, 18_000, 21_000],
    },
    Sender {
        node: 0,
        identifier: 1,
        bytes: 1,
        jitter: 4_500,
        spans: [4_000, 8_000, 12_000, 16_000, 20_000, 24_000, 28_000],
    },
    // too large a jitter
    Sender {
        node: 4,
        identifier: 50,
        bytes: 8,
        jitter: 1_048_577,
        spans: [3_000, 6_000, 9_000, 12_000, 15_000, 18_000, 21_000],
    },
    // more than the bus can carry
    Sender {
        node: 15,
        identifier: 2_047,
        bytes: 8,
        jitter: 0,
        spans: [150, 300, 450, 600, 750, 900, 1_050],
    },
];

// Each is a stream and an instance of it.
const PLACES: [(u32, u32); 9] = [
    (0, 1),
    (0, 2),
    (0, 9),
    (1, 1),
    (2, 1),
    (2, 4),
    (3, 8),
    (4, 2),
    (5, 4_194_306),
];

fn main(rt: HostRuntime) -> io::Result<()> {
    let mut sheet = Sheet::new(rt.alloc())?;
    for sender in SENDERS {
        match sheet.note(sender) {
            Ok(held) => println!(rt; "noted {held}")?,
            Err(refusal) => println!(rt; "refused {refusal}")?,
        }
    }
    for (stream, instance) in PLACES {
        if let Ok(place) = sheet.place(stream, 0, instance) {
            println!(rt; "place {stream} {instance} {place}")?;
        }
    }
    for stream in 0..sheet.streams() {
        if let Ok(identifier) = sheet.identifier(stream) {
            match bound(&sheet, stream) {
                Ok(Some(longest)) => println!(rt; "bound {identifier} {longest}")?,
                Ok(None) => println!(rt; "bound {identifier} unsettled")?,
                Err(refusal) => println!(rt; "refused {refusal}")?,
            }
        }
    }
    Ok(())
}
