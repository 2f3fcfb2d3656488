// The rows shipped, version 1 (rules T30 to T37), as a table to be staged.
#![tactic(auto)]

ghost use Rattle.std.specs.Prelude.{◌≡◌};
ghost use Rattle.encode.specs.Encode.{encode};
ghost use Rattle.shipped.specs.Rows.{shipped};
ghost use Rattle.shipped.specs.Statements.{Ships};

mod bytes; // bytes.rt: the bytes, written by tools/table

// The table: the file of the rows in specs/Rows.antt.
pub fn table() -> [u8; 492]
    ensures { result ≡ encode shipped }
{
    bytes::TABLE
}

// The file passes the check, and decodes to the rows as they are written.
pub fn ships()
    ensures { Ships }
{}
