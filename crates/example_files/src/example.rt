use crate::spelling::{SpellingFault, file_bytes};
use gr_base::End;
use std::alloc::Global;

/// Two modules. The first writes `hi` and exits with 0; the second has a node of each kind.
const TEXT: &str = "47544952420000 04 0a u01
    1a{ 0a u02 ISA 8201{ 0a u0c } ENTRY ORDER
        4a{ 0a MAIN_ID 1a 'main MAIN } 4a{ 0a u0a 1a 'msg MESSAGE } SYMBOLS
        62{ 0a u03 12 '.text CODE_FLAGS 2a{ 0a u04 CODE EXPRESSIONS SIZE CONTENTS } INTERVALS }
        62{ 0a u06 12 '.data DATA_FLAGS 2a{ 0a u07 DATA } }
        TABLES }
    1a{ 0a u12 8201{ 0a u1c } FAR_ENTRY 4a{ 0a u19 FAR_MAIN } 62{ 0a u13 2a{ 0a u14 12{ 12{ 0a u15 } } } } }
    30 04 CFG";

/// What the names stand for where no change says else.
const NAMES: &str = "
    ISA 30 v7; ENTRY 9201 u05; ORDER 9801 v2; MAIN_ID u09; MAIN 2a u05; MESSAGE 2a u08;
    CODE_FLAGS 32{ 01 03 04 05 }; DATA_FLAGS 32{ 01 02 04 05 }; CODE 12{ 12{ 0a u05 18 v36 } };
    EXPRESSIONS 1a{ 08 04 12{ 12{ 12 u0a } } } 1a{ 08 08 12{ 12{ 12 u0a } 22 01 03 } };
    SIZE 30 v36;
    CONTENTS 3a{ 200080d2 01000090 21000091 620080d2 080880d2 010000d4 000080d2 a80b80d2 010000d4 };
    DATA 12{ 1a{ 0a u08 18 v3 } } 30 v3 3a{ 68690a };
    SYMBOLS; INTERVALS; TABLES; FAR_ENTRY; FAR_MAIN; CFG 3a{ 12{ 0a u05 12 u1c } 1a u0c }";

/// The bytes of a file of two modules, of which the first writes `hi`, with changes of its names' words.
pub fn hello(alloc: Global, changes: &str) -> Result<Vec<u8>, End<SpellingFault>> {
    file_bytes(alloc, TEXT, changes, NAMES)
}
