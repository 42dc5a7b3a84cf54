// What stands in core before the first step, and what the instruments read.

// What the first scanner brings, in this order.
pub const READINGS: [u16; 6] = [1_200, 1_207, 1_193, 1_211, 1_198, 1_204];

// Addresses, and the data from there on. Every word that is not listed has data 0.
pub const DECK: [(usize, &[u16]); 68] = [
    // BSC: to 0100, where the program begins
    (0x0000, &[0x4C00, 0x0100]),
    // The vectors of the internal level, and of levels 0, 1 and 2
    (0x0008, &[0x0330]),
    (0x000B, &[0x0300, 0x0310, 0x0320]),
    // The program. XIO 0200: opens levels 0, 1 and 2
    (0x0100, &[0x0C00, 0x0200]),
    // XIO 0202: starts the scanner of area 1
    (0x0102, &[0x0C00, 0x0202]),
    // XIO 0204: starts the recorder of area 2
    (0x0104, &[0x0C00, 0x0204]),
    // LDX 1: minus 4
    (0x0106, &[0x61FC]),
    // WAIT for the end of the scanner's tables
    (0x0107, &[0x3000]),
    // SLA 16: A becomes 0
    (0x0108, &[0x1010]),
    // A, four times: a word of the first table, which ends ahead of 0405
    (0x0109, &[0x8500, 0x0405]),
    // MDX 1: plus 1, and skips at 0
    (0x010B, &[0x7101]),
    // MDX: back to 0109
    (0x010C, &[0x70FC]),
    // A: the first word of the second table
    (0x010D, &[0x8400, 0x0411]),
    // A: the other one
    (0x010F, &[0x8400, 0x0412]),
    // STO: the sum, where the recorder's last table hands it out
    (0x0111, &[0xD400, 0x0434]),
    // SRT 16: the sum into Q
    (0x0113, &[0x1890]),
    // D: by six
    (0x0114, &[0xAC00, 0x0221]),
    // STD: the mean, and what is left over, ahead of the sum
    (0x0116, &[0xDC00, 0x0432]),
    // LD: where the recorder's last table is
    (0x0118, &[0xC400, 0x0222]),
    // STO: behind the ramp, so that the recorder goes on there
    (0x011A, &[0xD400, 0x0429]),
    // XIO 0204: the recorder is busy
    (0x011C, &[0x0C00, 0x0204]),
    // XIO 020E: the device of area 4 does not take Read
    (0x011E, &[0x0C00, 0x020E]),
    // XIO 0214: starts the scanner of area 3, which has no words
    (0x0120, &[0x0C00, 0x0214]),
    // WAIT for the operator
    (0x0122, &[0x3000]),
    // LD: a word of wrong parity
    (0x0123, &[0xC400, 0x0450]),
    // STO: back into the same word, whose parity is right from here on
    (0x0125, &[0xD400, 0x0450]),
    // STO: into a protected word, which stays as it was
    (0x0127, &[0xD400, 0x0452]),
    // LD: the word whose parity was wrong
    (0x0129, &[0xC400, 0x0450]),
    // XIO 0212: no device has area 9, which is no check
    (0x012B, &[0x0C00, 0x0212]),
    // XIO 0216: ends the scanner of area 3
    (0x012D, &[0x0C00, 0x0216]),
    // XIO 0210: hands the mean to the recorder of area 4
    (0x012F, &[0x0C00, 0x0210]),
    // WAIT: the end
    (0x0131, &[0x3000]),
    // The pairs of XIO. Write of area 0, modifier 0: masks 0 to 15 from 0220
    (0x0200, &[0x0220, 0x0100]),
    // Initialize Read of area 1, tables from 0400
    (0x0202, &[0x0400, 0x0E00]),
    // Initialize Write of area 2, tables from 0420
    (0x0204, &[0x0420, 0x1500]),
    // Sense Device of area 1, modifier 1: its line goes down
    (0x0206, &[0x0000, 0x0F01]),
    // Sense Device of area 2, modifier 1: likewise
    (0x0208, &[0x0000, 0x1701]),
    // Control of area 0, modifier 2: drops the points of level 2
    (0x020A, &[0x0000, 0x0402]),
    // Sense Interrupt
    (0x020C, &[0x0000, 0x0300]),
    // Read of area 4
    (0x020E, &[0x0460, 0x2200]),
    // Write of area 4, the word at 0432
    (0x0210, &[0x0432, 0x2100]),
    // Control of area 9
    (0x0212, &[0x0000, 0x4C00]),
    // Initialize Read of area 3, table at 0440
    (0x0214, &[0x0440, 0x1E00]),
    // Control of area 3
    (0x0216, &[0x0000, 0x1C00]),
    // The masks, six, and the head of the recorder's last table
    (0x0220, &[0x1FFF, 0x0006, 0x0430]),
    // Level 0, the scanner's line. The word ahead is where to go back to. STO: keeps A at 0308
    (0x0301, &[0xD006]),
    // XIO 0206: senses the scanner
    (0x0302, &[0x0C00, 0x0206]),
    // LD: A again
    (0x0304, &[0xC003]),
    // BSC: back, and the service is over
    (0x0305, &[0x4CC0, 0x0300]),
    // Level 1, the recorder's line. STO: keeps A at 0318
    (0x0311, &[0xD006]),
    // XIO 0208: senses the recorder
    (0x0312, &[0x0C00, 0x0208]),
    // LD: A again
    (0x0314, &[0xC003]),
    // BSC: back, and the service is over
    (0x0315, &[0x4CC0, 0x0310]),
    // Level 2, the operator's point. MDX: one more call, counted at 0328
    (0x0321, &[0x7401, 0x0328]),
    // XIO 020A: drops the point
    (0x0323, &[0x0C00, 0x020A]),
    // BSC: back, and the service is over
    (0x0325, &[0x4CC0, 0x0320]),
    // The internal level. STO: keeps A at 0339
    (0x0331, &[0xD007]),
    // XIO 020C: senses the flags and clears them
    (0x0332, &[0x0C00, 0x020C]),
    // STO: the flags, at 033A
    (0x0334, &[0xD005]),
    // LD: A again
    (0x0335, &[0xC003]),
    // BSC: back, and the service is over
    (0x0336, &[0x4CC0, 0x0330]),
    // The scanner's tables: four words and go on at 0410; two words and tell
    (0x0400, &[0x8004, 0, 0, 0, 0, 0x0410]),
    (0x0410, &[0x4002]),
    // The recorder's tables: a ramp of eight words, which goes on at itself until the program stores another address behind it
    (
        0x0420,
        &[0x8008, 100, 200, 300, 400, 500, 600, 700, 800, 0x0420],
    ),
    // Four words and tell: a mark, the mean, what is left over, and the sum
    (0x0430, &[0x4004, 0x7FFF, 0, 0, 0]),
    // The table of area 3: one word and tell, which never comes
    (0x0440, &[0x4001]),
    // What is read with wrong parity
    (0x0450, &[0x04D2]),
    // What is protected
    (0x0452, &[0x1234]),
];

// Words whose parity is wrong: where the operator's calls are counted, the mark in the recorder's last table, and one that the program loads.
pub const WRONG: [usize; 3] = [0x0328, 0x0431, 0x0450];

// The word that is protected.
pub const PROTECTED: usize = 0x0452;

// What is printed at the end, by address and how many words: the scanner's tables, the recorder's last, the operator's calls, the flags
// that were sensed last, and the protected word.
pub const SHOWN: [(usize, usize); 6] = [
    (0x0401, 4),
    (0x0411, 2),
    (0x0431, 4),
    (0x0328, 1),
    (0x033A, 1),
    (0x0452, 1),
];
