// The calls on texts alone: reading, writing, and showing a payee. Each prints its lines on the page.
use crate::lent::Lent;
use crate::page::Page;
use crate::report::put_answer;
use std::fmt;
use std::fmt::Write;
use texts::bounds::CODE_DIGITS;
use texts::{
    Code, Refusal, Register, Slip, payee_part, read_register, read_slip, write_register, write_slip,
};

// What a text says: a register or a slip.
pub(crate) trait Text: Copy {
    fn read(text: &[u8]) -> Result<Self, Refusal>;

    fn write(self, buffer: &mut [u8]) -> Result<usize, Refusal>;

    // The value with a byte in a place of a code that is not used.
    fn spoiled(self) -> Self;
}

// A byte in the first place that the code does not use; a code of eight digits stays as it is.
fn spoiled(mut code: Code) -> Code {
    if code.len < CODE_DIGITS {
        code.digits[code.len] = b'0';
    }
    code
}

impl Text for Register {
    fn read(text: &[u8]) -> Result<Self, Refusal> {
        read_register(text)
    }

    fn write(self, buffer: &mut [u8]) -> Result<usize, Refusal> {
        write_register(self, buffer)
    }

    fn spoiled(self) -> Self {
        Register {
            own: spoiled(self.own),
            ..self
        }
    }
}

impl Text for Slip {
    fn read(text: &[u8]) -> Result<Self, Refusal> {
        read_slip(text)
    }

    fn write(self, buffer: &mut [u8]) -> Result<usize, Refusal> {
        write_slip(self, buffer)
    }

    fn spoiled(self) -> Self {
        Slip {
            payer: spoiled(self.payer),
            ..self
        }
    }
}

// What reading answered, and, where it gave a value, what writing that answers.
pub(crate) fn put_round<T: Text>(
    page: &mut Page,
    mut lent: Lent,
    read: Result<T, Refusal>,
) -> fmt::Result {
    put_answer(page, "read", read)?;
    page.put(b"\n")?;
    let Ok(value) = read else {
        return Ok(());
    };
    let room = lent.room;
    let written = value.write(&mut lent.bytes[..room]);
    put_answer(page, "write", written)?;
    let count = written.unwrap_or(0);
    writeln!(page, " count={count:03}")?;
    lent.put_text(page, count)
}

// Shows the payee of a slip.
pub(crate) fn put_payee(page: &mut Page, register: &[u8], slip: &[u8]) -> fmt::Result {
    page.put(b"payee=")?;
    page.put(payee_part(register, slip))?;
    page.put(b"\n")
}
