//! Trials: the library against another classifier that shares no code with it, on random sheets, whole and damaged.
#![tactic(auto)]

#[cfg(test)]
mod tests {
    use listing::classification::{PAGE, list};
    use random_sheets::{Random, Size, damaged, random_sheet};
    use reference::{Room, expected_output, first_fault};
    use sheet::fault::Layer;
    use sheet::read;
    use std::alloc::{AllocError, Global};
    use std::test::*;
    use terms::records::{Concept, Inclusion};
    use terms::terms::Terms;

    // How many concepts and inclusions the lists have room for.
    const CONCEPTS: usize = 40;

    const INCLUSIONS: usize = 200;

    const ROOM: Room = Room {
        concepts: CONCEPTS,
        inclusions: INCLUSIONS,
    };

    // Whether the library answers for a text what the other classifier expects, byte by byte.
    fn agrees(heap: Global, text: &[u8], page: &mut [u8; PAGE]) -> Result<bool, AllocError> {
        let expected = expected_output(heap, text)?;
        match list(text, page) {
            Ok(size) => Ok(&page[0..size] == expected.as_slice()),
            Err(trouble) => Ok(trouble.line().as_slice() == expected.as_slice()),
        }
    }

    // How many sheets of up to so many concepts agree, each once whole and once damaged, until one does not.
    fn agreeing(heap: Global, seed: u64, rounds: u32, size: Size) -> Result<u32, AllocError> {
        let mut random = Random::seeded(seed);
        let mut page = [0; PAGE];
        let mut count = 0u32;
        for _ in 0..rounds {
            let sheet = random_sheet(heap, &mut random, size)?;
            let broken = damaged(heap, &mut random, sheet.as_slice())?;
            if !agrees(heap, sheet.as_slice(), &mut page)?
                || !agrees(heap, broken.as_slice(), &mut page)?
            {
                return Ok(count);
            }
            count = count.saturating_add(2);
        }
        Ok(count)
    }

    #[test]
    fn small_sheets_agree(rt: HostRuntime) -> Result<(), Fail> {
        let size = Size {
            concepts: 8,
            roles: 2,
            inclusions: 6,
            most_code: 66,
        };
        let count = agreeing(rt.alloc(), 1, 1500, size)?;
        println!(rt; "small sheets that agree: {count}")?;
        assert_eq!(rt; count, 3000);
        Ok(())
    }

    #[test]
    fn larger_sheets_agree(rt: HostRuntime) -> Result<(), Fail> {
        let size = Size {
            concepts: 24,
            roles: 3,
            inclusions: 22,
            most_code: 64,
        };
        let count = agreeing(rt.alloc(), 2, 500, size)?;
        println!(rt; "larger sheets that agree: {count}")?;
        assert_eq!(rt; count, 1000);
        Ok(())
    }

    // What a fault is, for either reader.
    #[derive(Clone, Copy, PartialEq, Debug)]
    struct Known {
        layer: Layer,
        number: u16,
        line: usize,
        column: usize,
    }

    impl From<sheet::fault::Fault> for Known {
        fn from(fault: sheet::fault::Fault) -> Known {
            Known {
                layer: fault.layer,
                number: fault.rejection.number(),
                line: fault.line,
                column: fault.column,
            }
        }
    }

    impl From<reference::Fault> for Known {
        fn from(fault: reference::Fault) -> Known {
            Known {
                layer: match fault.layer {
                    reference::Layer::Field => Layer::Field,
                    reference::Layer::Line => Layer::Line,
                    reference::Layer::Sheet => Layer::Sheet,
                },
                number: fault.number(),
                line: fault.line,
                column: fault.column,
            }
        }
    }

    // The first fault of the text by the library's reader.
    fn fault_of(text: &[u8]) -> Option<Known> {
        let mut concepts = [Concept::Atomic; CONCEPTS];
        let mut inclusions = [Inclusion::default(); INCLUSIONS];
        let mut terms = Terms::empty(&mut concepts, &mut inclusions);
        read(text, &mut terms).err().map(Known::from)
    }

    // How many faults of each layer were met.
    #[derive(Clone, Copy, Default)]
    struct Met {
        fields: u32,
        lines: u32,
        sheets: u32,
    }

    impl Met {
        // One fault more of the layer.
        fn add(&mut self, layer: Layer) {
            let met = match layer {
                Layer::Field => &mut self.fields,
                Layer::Line => &mut self.lines,
                Layer::Sheet => &mut self.sheets,
            };
            *met = met.saturating_add(1);
        }
    }

    // Damaged sheets, whose faults have the same layer, number, line and column for both readers.
    #[test]
    fn faults_agree(rt: HostRuntime) -> Result<(), Fail> {
        let size = Size {
            concepts: 36,
            roles: 4,
            inclusions: 30,
            most_code: 65535,
        };
        let mut random = Random::seeded(3);
        let mut met = Met::default();
        let mut count = 0u32;
        for _ in 0..4000u32 {
            let sheet = random_sheet(rt.alloc(), &mut random, size)?;
            let broken = damaged(rt.alloc(), &mut random, sheet.as_slice())?;
            let fault = fault_of(&broken);
            assert_eq!(rt; fault, first_fault(&broken, ROOM).map(Known::from));
            count = count.saturating_add(1);
            if let Some(fault) = fault {
                met.add(fault.layer);
            }
        }
        let Met {
            fields,
            lines,
            sheets,
        } = met;
        assert!(rt; fields > 0 && lines > 0 && sheets > 0);
        println!(rt;
            "damaged sheets that agree: {count}, with {fields} faults of fields, {lines} of lines and {sheets} of sheets"
        )?;
        Ok(())
    }
}
