//! The operations of the machine.

ghost use Rattle.std.specs.Prelude.{◌≡◌, ◌≢◌, IfSome, None};
ghost use Rattle.pcap_filter.specs.Codes.{code_of, kind_of};
ghost use Rattle.pcap_filter.specs.declared.operation.Operation.{Operation};

/// The operation of an instruction. Its name in assembly is that of McCanne and Jacobson.
#[derive(Clone, Copy, Debug)]
pub enum Operation {
    /// `ld [k]` loads four bytes of the packet into the accumulator.
    LoadWord,
    /// `ldh [k]` loads two bytes of the packet into the accumulator.
    LoadHalf,
    /// `ldb [k]` loads a byte of the packet into the accumulator.
    LoadByte,
    /// `ld [x + k]` loads four bytes from the place `k` plus the index register.
    LoadWordBehind,
    /// `ldh [x + k]` loads two bytes from the place `k` plus the index register.
    LoadHalfBehind,
    /// `ldb [x + k]` loads a byte from the place `k` plus the index register.
    LoadByteBehind,
    /// `ld #pktlen` loads the packet's original length into the accumulator.
    LoadLength,
    /// `ld #k` loads the number `k` into the accumulator.
    LoadConstant,
    /// `ld M[k]` loads a cell of the memory into the accumulator.
    LoadCell,
    /// `ldx #k` loads the number `k` into the index register.
    LoadIndexConstant,
    /// `ldx #pktlen` loads the packet's original length into the index register.
    LoadIndexLength,
    /// `ldx M[k]` loads a cell of the memory into the index register.
    LoadIndexCell,
    /// `ldxb 4*([k]&0xf)` loads four times the low half of a byte of the packet, as the length of an IPv4 header, into the index register.
    LoadIndexHeaderLength,
    /// `st M[k]` stores the accumulator in a cell of the memory.
    StoreCell,
    /// `stx M[k]` stores the index register in a cell of the memory.
    StoreIndexCell,
    /// `add #k` adds modulo 2^32.
    AddConstant,
    /// `add x` adds modulo 2^32.
    AddIndex,
    /// `sub #k` subtracts modulo 2^32.
    SubtractConstant,
    /// `sub x` subtracts modulo 2^32.
    SubtractIndex,
    /// `mul #k` multiplies modulo 2^32.
    MultiplyConstant,
    /// `mul x` multiplies modulo 2^32.
    MultiplyIndex,
    /// `div #k` divides and rounds down.
    DivideConstant,
    /// `div x` divides and rounds down. If the index register is 0, it rejects the packet.
    DivideIndex,
    /// `mod #k` computes the remainder.
    RemainderConstant,
    /// `mod x` computes the remainder. If the index register is 0, it rejects the packet.
    RemainderIndex,
    /// `and #k` computes the bitwise and.
    AndConstant,
    /// `and x` computes the bitwise and.
    AndIndex,
    /// `or #k` computes the bitwise or.
    OrConstant,
    /// `or x` computes the bitwise or.
    OrIndex,
    /// `xor #k` computes the bitwise exclusive or.
    XorConstant,
    /// `xor x` computes the bitwise exclusive or.
    XorIndex,
    /// `lsh #k` shifts left and keeps the low 32 bits.
    ShiftLeftConstant,
    /// `lsh x` shifts left and keeps the low 32 bits. A shift by 32 or more gives 0.
    ShiftLeftIndex,
    /// `rsh #k` shifts right.
    ShiftRightConstant,
    /// `rsh x` shifts right. A shift by 32 or more gives 0.
    ShiftRightIndex,
    /// `neg` negates the accumulator modulo 2^32.
    Negate,
    /// `ja k` skips the next `k` instructions.
    Jump,
    /// `jeq #k` skips the next `jt` instructions if the accumulator is `k`, and the next `jf` otherwise.
    JumpEqualConstant,
    /// `jeq x` tests whether the accumulator equals the index register.
    JumpEqualIndex,
    /// `jgt #k` tests whether the accumulator is greater than `k`.
    JumpAboveConstant,
    /// `jgt x` tests whether the accumulator is greater than the index register.
    JumpAboveIndex,
    /// `jge #k` tests whether the accumulator is at least `k`.
    JumpFromConstant,
    /// `jge x` tests whether the accumulator is at least the index register.
    JumpFromIndex,
    /// `jset #k` tests whether the accumulator and `k` have a bit in common.
    JumpAnyBitConstant,
    /// `jset x` tests whether the accumulator and the index register have a bit in common.
    JumpAnyBitIndex,
    /// `ret #k` accepts `k` bytes of the packet.
    ReturnConstant,
    /// `ret a` accepts the number of bytes that is in the accumulator.
    ReturnAccumulator,
    /// `tax` copies the accumulator to the index register.
    CopyToIndex,
    /// `txa` copies the index register to the accumulator.
    CopyToAccumulator,
}

/// The condition on the number `k` of an operation, and the instruction to which the operation leads.
#[derive(Clone, Copy, Debug)]
pub enum Kind {
    /// There is no condition. The next instruction follows.
    Plain,
    /// `k` is the number of a memory cell. The next instruction follows.
    Cell,
    /// `k` is not 0. The next instruction follows.
    Divisor,
    /// `k` is below the number of bits of a register. The next instruction follows.
    Shift,
    /// The operation leads to the instruction behind the next `k` instructions.
    Jump,
    /// The operation leads to the instruction behind the next `jt` or `jf` instructions.
    Branch,
    /// The operation ends the program.
    Return,
}

impl Operation {
    /// Returns the operation of a code, if there is one.
    pub fn from_code(code: u16) -> Option<Operation>
        ensures named { IfSome result (λ operation. code_of operation ≡ code) }
        ensures unknown { result ≡ None → (operation : Operation) → code_of operation ≢ code }
    {
        let operation = match code {
            0x20 => Operation::LoadWord,
            0x28 => Operation::LoadHalf,
            0x30 => Operation::LoadByte,
            0x40 => Operation::LoadWordBehind,
            0x48 => Operation::LoadHalfBehind,
            0x50 => Operation::LoadByteBehind,
            0x80 => Operation::LoadLength,
            0x00 => Operation::LoadConstant,
            0x60 => Operation::LoadCell,
            0x01 => Operation::LoadIndexConstant,
            0x81 => Operation::LoadIndexLength,
            0x61 => Operation::LoadIndexCell,
            0xb1 => Operation::LoadIndexHeaderLength,
            0x02 => Operation::StoreCell,
            0x03 => Operation::StoreIndexCell,
            0x04 => Operation::AddConstant,
            0x0c => Operation::AddIndex,
            0x14 => Operation::SubtractConstant,
            0x1c => Operation::SubtractIndex,
            0x24 => Operation::MultiplyConstant,
            0x2c => Operation::MultiplyIndex,
            0x34 => Operation::DivideConstant,
            0x3c => Operation::DivideIndex,
            0x94 => Operation::RemainderConstant,
            0x9c => Operation::RemainderIndex,
            0x54 => Operation::AndConstant,
            0x5c => Operation::AndIndex,
            0x44 => Operation::OrConstant,
            0x4c => Operation::OrIndex,
            0xa4 => Operation::XorConstant,
            0xac => Operation::XorIndex,
            0x64 => Operation::ShiftLeftConstant,
            0x6c => Operation::ShiftLeftIndex,
            0x74 => Operation::ShiftRightConstant,
            0x7c => Operation::ShiftRightIndex,
            0x84 => Operation::Negate,
            0x05 => Operation::Jump,
            0x15 => Operation::JumpEqualConstant,
            0x1d => Operation::JumpEqualIndex,
            0x25 => Operation::JumpAboveConstant,
            0x2d => Operation::JumpAboveIndex,
            0x35 => Operation::JumpFromConstant,
            0x3d => Operation::JumpFromIndex,
            0x45 => Operation::JumpAnyBitConstant,
            0x4d => Operation::JumpAnyBitIndex,
            0x06 => Operation::ReturnConstant,
            0x16 => Operation::ReturnAccumulator,
            0x07 => Operation::CopyToIndex,
            0x87 => Operation::CopyToAccumulator,
            _ => return None,
        };
        Some(operation)
    }

    // Returns the condition on the operation's number, and where the operation leads.
    pub(crate) fn kind(self) -> Kind
        ensures { result ≡ kind_of self }
    {
        match self {
            Operation::LoadCell
            | Operation::LoadIndexCell
            | Operation::StoreCell
            | Operation::StoreIndexCell => Kind::Cell,
            Operation::DivideConstant | Operation::RemainderConstant => Kind::Divisor,
            Operation::ShiftLeftConstant | Operation::ShiftRightConstant => Kind::Shift,
            Operation::Jump => Kind::Jump,
            Operation::JumpEqualConstant
            | Operation::JumpEqualIndex
            | Operation::JumpAboveConstant
            | Operation::JumpAboveIndex
            | Operation::JumpFromConstant
            | Operation::JumpFromIndex
            | Operation::JumpAnyBitConstant
            | Operation::JumpAnyBitIndex => Kind::Branch,
            Operation::ReturnConstant | Operation::ReturnAccumulator => Kind::Return,
            _ => Kind::Plain,
        }
    }
}
