//! A whole term sheet: where its first fault is.
use crate::faults::{Fault, Layer, Reason};
use crate::lines::{Concept, Entry, FIELD_COLUMNS, Inclusion, NumberedLine, WIDTH};

/// How many concepts and inclusions a reader has room for.
#[derive(Clone, Copy)]
pub struct Room {
    pub concepts: usize,
    pub inclusions: usize,
}

/// The most concepts, roles and inclusions of any sheet, however much room there is.
const MOST: Counts = Counts {
    concepts: 1024,
    roles: 32,
    inclusions: 4096,
};

/// How many there are of each.
#[derive(Clone, Copy, Default)]
struct Counts {
    concepts: usize,
    roles: usize,
    inclusions: usize,
}

impl Counts {
    /// The counts with what the entry adds.
    fn with(self, entry: Entry) -> Counts {
        match entry {
            Entry::Concept(_) => Counts {
                concepts: self.concepts.saturating_add(1),
                ..self
            },
            Entry::Role => Counts {
                roles: self.roles.saturating_add(1),
                ..self
            },
            Entry::Inclusion(_) => Counts {
                inclusions: self.inclusions.saturating_add(1),
                ..self
            },
            Entry::Order(_, _) | Entry::Transitive(_) => self,
        }
    }

    /// Whether none is above the other's.
    fn within(self, most: Counts) -> bool {
        self.concepts <= most.concepts
            && self.roles <= most.roles
            && self.inclusions <= most.inclusions
    }

    /// Whether the numbers in the first and in the second field of the entry name something, where they are names.
    fn names(self, entry: Entry) -> [bool; 2] {
        match entry {
            Entry::Concept(Concept::Atomic | Concept::Top) | Entry::Role => [true, true],
            Entry::Concept(Concept::Conjunction(x, y))
            | Entry::Inclusion(
                Inclusion {
                    left: x,
                    right: y,
                    ..
                },
            ) => [x < self.concepts, y < self.concepts],
            Entry::Concept(Concept::Restriction(role, x)) => [role < self.roles, x < self.concepts],
            Entry::Order(lower, upper) => [lower < self.roles, upper < self.roles],
            Entry::Transitive(role) => [role < self.roles, true],
        }
    }

    /// The counts with the line below what is counted, or its first fault.
    fn after(self, line: NumberedLine<'_>, most: Counts) -> Result<Counts, Fault> {
        let entry = line.entry()?;
        for (named, column) in self.names(entry).into_iter().zip(FIELD_COLUMNS) {
            if !named {
                return Err(line.fault(Layer::Field, Reason::UnknownName, column));
            }
        }
        let counts = self.with(entry);
        if counts.within(most) {
            Ok(counts)
        } else {
            Err(line.fault(Layer::Sheet, Reason::BeyondLimit, 1))
        }
    }
}

/// Whether the text is a sheet that fits the room.
pub fn check(text: &[u8], room: Room) -> Result<(), Fault> {
    let (lines, rest) = text.as_chunks::<WIDTH>();
    if !rest.is_empty() {
        return Err(Fault {
            layer: Layer::Sheet,
            reason: Reason::UnfinishedLine,
            line: lines.len() + 1,
            column: 1,
        });
    }
    let most = Counts {
        concepts: room.concepts.min(MOST.concepts),
        roles: MOST.roles,
        inclusions: room.inclusions.min(MOST.inclusions),
    };
    let mut above = Counts::default();
    for (place, columns) in lines.iter().enumerate() {
        let number = place + 1;
        above = above.after(NumberedLine { columns, number }, most)?;
    }
    Ok(())
}

/// The first fault of the text, for a reader with the room.
pub fn first_fault(text: &[u8], room: Room) -> Option<Fault> {
    check(text, room).err()
}
