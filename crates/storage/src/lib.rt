// Storage words and image files: what a core is made of, and how it is kept in a file.
#![tactic(auto)]

pub mod image;
pub mod memory;
pub mod survey;
pub mod word;

#[cfg(test)]
mod tests {
    use crate::image::decode;
    use crate::word::{data_of, is_protected, parity_is_right, stored, word_of};
    use refusal::Refusal;
    use std::test::Fail;

    struct Row {
        data: u16,
        protect: bool,
        word: u32,
    }

    // Numbers worked out by hand from the layout of a word.
    const ROWS: [Row; 6] = [
        Row {
            data: 0,
            protect: false,
            word: 0x2_0000,
        },
        Row {
            data: 0,
            protect: true,
            word: 0x1_0000,
        },
        Row {
            data: 1,
            protect: false,
            word: 0x0_0001,
        },
        Row {
            data: 1,
            protect: true,
            word: 0x3_0001,
        },
        Row {
            data: 0xFFFF,
            protect: false,
            word: 0x2_FFFF,
        },
        Row {
            data: 0x8001,
            protect: true,
            word: 0x1_8001,
        },
    ];

    #[test]
    fn words(rt: HostRuntime) {
        for row in &ROWS {
            assert_eq!(rt; word_of(row.data, row.protect), row.word);
            assert_eq!(rt; data_of(row.word), row.data);
            assert_eq!(rt; is_protected(row.word), row.protect);
            assert!(rt; parity_is_right(row.word));
            assert!(rt; !parity_is_right(row.word ^ 0x1_0000));
            // bits above the eighteenth are ignored, and gone after a store
            assert_eq!(rt; stored(row.word | 0xFFFC_0000, row.data), row.word);
        }
    }

    #[test]
    fn a_refused_image_changes_nothing(rt: HostRuntime) -> Result<(), Fail> {
        let heap = rt.alloc();
        let mut core = vec![in heap; 7u32; 4096]?;
        let mut image = vec![in heap; 3u8; 12_288]?;
        image.pop();
        assert_eq!(rt; decode(&image, &mut core), Err(Refusal::Length));
        image.push(0)?;
        assert!(rt; image.len() == 12_288);
        image[12_285] = 4;
        assert_eq!(rt; decode(&image, &mut core), Err(Refusal::ImageByte));
        assert_eq!(rt; core.iter().copied().min(), Some(7));
        assert_eq!(rt; core.iter().copied().max(), Some(7));
        Ok(())
    }
}
