// What is printed: the lines of a register, of a slip, of a shop.
ghost use Rattle.std.specs.Prelude.{◌≡◌, true, ◌++◌};
ghost use Rattle.texts.specs.Bytes.{bytes};
ghost use Rattle.texts.specs.Leaf.{digits};
ghost use Rattle.texts.specs.Code.{is_code};
ghost use Rattle.replica.specs.State.{lawful};
ghost use Rattle.desk.specs.Inside.{RoomFor, Prints};
ghost use Rattle.desk.specs.Printed.{register_line, answer_lines, slip_lines, numbers_lines, shop_lines, shops_printed};

use replica::{Replica, Shop};
use texts::page::{put_number_line, put_word};
use texts::{Code, why};

// The lent page, and the place where the next byte is put. What is printed of an answer is its number (`register_line`, `answer_lines`), so it
// comes as one. Not the pen of the texts, which is private there: made public it would ask room of its callers, and no public function asks
// anything.
#[derive(Drop)]
pub(crate) struct Printer<'a> {
    pub(crate) page: &'a mut [u8],
    pub(crate) at: usize,
}

impl Printer<'_> {
    // The bytes of a word.
    fn put_word(&mut self, word: &[u8])
        requires { RoomFor self.old word.now }
        ensures { Prints self.old self.new word.now }
    {
        self.at = put_word(self.page, self.at, word);
    }

    // A line: a key, a value's bytes, and a byte 10.
    fn put_line(&mut self, key: &[u8], value: &[u8])
        requires { RoomFor self.old (key.now ++ (value.now ++ bytes "\n")) }
        ensures { Prints self.old self.new (key.now ++ (value.now ++ bytes "\n")) }
    {
        self.put_word(key);
        self.put_word(value);
        self.put_word(b"\n");
    }

    // A line: a key, a number of a width, and a byte 10.
    fn put_number(&mut self, key: &[u8], value: u32, width: usize)
        requires { RoomFor self.old (key.now ++ (digits width value ++ bytes "\n")) }
        ensures { Prints self.old self.new (key.now ++ (digits width value ++ bytes "\n")) }
    {
        self.at = put_number_line(self.page, self.at, key, value, width);
    }

    // The answer to the register.
    pub(crate) fn put_register(&mut self, answer: u8)
        requires { RoomFor self.old (register_line answer) }
        ensures { Prints self.old self.new (register_line answer) }
    {
        self.put_number(b"register=", answer as u32, 2);
    }

    // An answer and its name.
    fn put_answer(&mut self, answer: u8)
        requires { RoomFor self.old (answer_lines answer) }
        ensures { Prints self.old self.new (answer_lines answer) }
    {
        let name = why(answer);
        self.put_number(b"answer=", answer as u32, 2);
        self.put_line(b"why=", &name.bytes[..name.len]);
    }

    // What came of a slip: its running number, the answer, its name, how many slips were applied.
    pub(crate) fn put_slip(&mut self, slip: u32, answer: u8, applied: u32)
        requires { RoomFor self.old (slip_lines slip answer applied) }
        ensures { Prints self.old self.new (slip_lines slip answer applied) }
    {
        self.put_number(b"slip=", slip, 6);
        self.put_answer(answer);
        self.put_number(b"applied=", applied, 3);
    }

    // A shop's balance, how many of its slips are done, how many wait.
    fn put_numbers(&mut self, balance: u32, applied: u32, waits: u32)
        requires { RoomFor self.old (numbers_lines balance applied waits) }
        ensures { Prints self.old self.new (numbers_lines balance applied waits) }
    {
        self.put_number(b"balance=", balance, 8);
        self.put_number(b"done=", applied, 6);
        self.put_number(b"waits=", waits, 1);
    }

    // A shop: its code and its numbers.
    fn put_shop(&mut self, code: Code, shop: Shop, waits: u32)
        requires { (is_code code ≡ true) × RoomFor self.old (shop_lines code shop.balance shop.applied waits) }
        ensures { Prints self.old self.new (shop_lines code shop.balance shop.applied waits) }
    {
        self.put_line(b"shop=", &code.digits[..code.len]);
        self.put_numbers(shop.balance, shop.applied, waits);
    }

    // The shops, in register order.
    pub(crate) fn put_shops(&mut self, replica: &Replica)
        requires { (lawful replica.now ≡ true) × RoomFor self.old (shops_printed replica.now) }
        ensures { Prints self.old self.new (shops_printed replica.now) }
    {
        let register = &replica.register;
        for i in 0..register.count {
            let waits = replica.lines[i].count as u32;
            self.put_shop(register.shops[i].code, replica.shops[i], waits);
        }
    }
}
