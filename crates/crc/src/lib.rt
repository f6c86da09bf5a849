// The CRC-8 of the SII: polynomial 0x07, start 0xFF, no reflection, no final xor.
// Follows `STATION_ALIAS_CRC` of src/eeprom/mod.rs and RULES, read-out.
#![tactic(auto)]

ghost use Rattle.std.specs.Prelude.{◌≡◌};
ghost use Rattle.crc.specs.Crc.{byte_bits, crc_of};
ghost use Rattle.crc.specs.Steps.{shifted_by, entries};

use table::{TABLE, Table};

mod table;

// The start value.
const START: u8 = 0xFF;

// The CRC of the bytes.
pub fn crc(s: &[u8]) -> u8
    ensures { result ≡ crc_of s.now }
{
    by_table(&TABLE, s)
}

// The same from the table. It is lent, since a constant that is read in a loop is laid out anew each time round.
fn by_table(table: &Table, s: &[u8]) -> u8
    requires { table.now ≡ entries }
    ensures { result ≡ crc_of s.now }
{
    let mut c = START;
    for b in s {
        c = shift8(table, c ^ *b);
    }
    c
}

// Eight places.
#[tactic(auto, using(crate::proofs::Entries::table_rule))]
fn shift8(table: &Table, c: u8) -> u8
    requires { table.now ≡ entries }
    ensures { result ≡ shifted_by byte_bits c }
{
    table[usize::from(c)]
}
