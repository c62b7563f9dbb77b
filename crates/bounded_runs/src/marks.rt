//! Which registers and bytes of memory may hold other numbers in a run from an input that is alike.
ghost use Rattle.std.specs.Prelude.{◌≡◌, ◌+◌, ◌*◌, ◌<◌, ◌≤◌, ◌%◌, ◌^◌, ℕ, true, false, Some, None, Ok, IfNone, IfSome, IsTrue, if◌then◌else◌, length};
ghost use Rattle.bpf_insn.specs.Arithmetic.{bits_of};
ghost use Rattle.bpf_insn.specs.declared.forms.Insn.TheVariants as i;
ghost use Rattle.bpf_insn.specs.Operands.{access_bytes};
ghost use Rattle.node_env.specs.declared.region.Region.TheVariants.{Mem};
ghost use Rattle.node_env.specs.Helpers.{helper_of};
ghost use Rattle.node_env.specs.declared.shape.TheConstants.{MAX_MEMORY};
ghost use Rattle.node_env.specs.declared.helper.Helper.TheVariants.{Recv};
ghost use Rattle.bpf_machine.specs.Step.{operand_of, place, word_of};
ghost use Rattle.bounded_runs.specs.Bounded.{StayInKept, is_kept, memory_word};
ghost use Rattle.bounded_runs.specs.inner.Marks.{AreMarksOf, after_helper, place_from, if_plain, after_load, after_store, all_marked, at_place, bound_in, comparison_decided, decides_left, decides_right, is_decided, is_large, has_mark, is_whole_word, marks_after, operand_marked, register_marked, takes_large, touches_marked, with_answer, with_mark, with_byte_marks};

use bpf_insn::{AluOp, Cond, Insn, Operand, Reg, Size, SxSize, Width};
use bpf_machine::{State, Word};
use node_env::{Env, Helper, MAX_MEMORY, Region};

/// How many registers there are.
const REGISTERS: usize = 11;

/// The bytes of a word of memory.
pub(crate) const WORD_BYTES: u32 = 4;

/// How many bytes the largest memory has.
const MAX_BYTES: usize = MAX_MEMORY as usize;

/// Which registers and bytes of memory may hold other numbers.
#[derive(Drop)]
pub(crate) struct Marks {
    pub(crate) registers: [bool; REGISTERS],
    pub(crate) bytes: [bool; MAX_BYTES],
}

/// What a step is taken with.
#[derive(Clone, Copy)]
pub(crate) struct StepView<'a> {
    pub(crate) env: &'a Env,
    pub(crate) state: &'a State,
    pub(crate) bound: u32,
    /// Whether each word of memory is kept.
    pub(crate) kept: &'a [bool],
}

/// Returns true if every large number compares alike with this one on its right.
fn decides_left(bound: u32, cond: Cond, y: u64) -> bool
    ensures { result ≡ decides_left bound cond y }
{
    let bound = u64::from(bound);
    match cond {
        Cond::Eq | Cond::Ne | Cond::Gt | Cond::Le => y < bound,
        Cond::Ge | Cond::Lt => y <= bound,
        Cond::Set | Cond::Sgt | Cond::Sge | Cond::Slt | Cond::Sle => false,
    }
}

/// Returns true if every large number compares alike with this one on its left.
fn decides_right(bound: u32, cond: Cond, y: u64) -> bool
    ensures { result ≡ decides_right bound cond y }
{
    let bound = u64::from(bound);
    match cond {
        Cond::Eq | Cond::Ne | Cond::Lt | Cond::Ge => y < bound,
        Cond::Le | Cond::Gt => y <= bound,
        Cond::Set | Cond::Sgt | Cond::Sge | Cond::Slt | Cond::Sle => false,
    }
}

/// Returns the bits of a number that a comparison looks at.
fn low_bits(width: Width, number: u64) -> u64
    ensures { result ≡ number % 2 ^ bits_of width }
{
    match width {
        Width::W32 => number % (1 << 32),
        Width::W64 => number,
    }
}

/// Returns the number that a register holds.
fn number_of(state: &State, register: Reg) -> Option<u64>
    ensures { IfSome result (λ number. word_of state.now register ≡ Ok (Word.Num number)) }
{
    match state.register(register) {
        Some(Word::Num(number)) => Some(number),
        Some(Word::Ptr(_, _)) | None => None,
    }
}

/// Returns the number that an operand is.
fn operand_number(state: &State, operand: Operand) -> Option<u64>
    ensures { IfSome result (λ number. operand_of state.now operand ≡ Ok (Word.Num number)) }
{
    match operand {
        Operand::Imm(imm) => Some(i64::from(imm).cast_unsigned()),
        Operand::Reg(register) => number_of(state, register),
    }
}

/// Returns true if the access takes a whole word.
fn is_whole_word(first: u32, count: u32) -> bool
    ensures { result ≡ is_whole_word first count }
{
    count == 4 && first % 4 == 0
}

/// Returns true if the word is kept.
pub(crate) fn is_kept(kept: &[bool], word: usize) -> bool
    ensures { result ≡ is_kept kept.now word }
{
    match kept.get(word) {
        Some(is) => *is,
        None => false,
    }
}

/// Returns the region of an access and its first byte there; none if it isn't inside.
fn place(env: &Env, base: Word, off: i16, count: u32) -> Option<(Region, u32)>
    requires { count ≤ 8 }
    ensures value { IfSome result (λ at. place env.now base off count ≡ Ok at) }
    ensures inside { IfSome result (λ at. at.0 ≡ Mem → at.1 + count ≤ MAX_MEMORY) }
{
    let Word::Ptr(region, offset) = base else {
        return None;
    };
    let first = i64::from(offset) + i64::from(off);
    if first < 0 || first + i64::from(count) > i64::from(env.shape().region_size(region)) {
        return None;
    }
    Some((region, first as u32))
}

/// Returns the number in four bytes of a memory, the lowest first.
fn word_at(memory: &[u8], k: usize) -> u32
    requires { 4 * k + 4 ≤ length memory.now }
    ensures { result ≡ memory_word memory.now k }
{
    let first = WORD_BYTES as usize * k;
    u32::from_le_bytes([
        memory[first],
        memory[first + 1],
        memory[first + 2],
        memory[first + 3],
    ])
}

impl Marks {
    /// Returns the marks of a run that begins: of no register, and of the bytes of each word of the memory that is
    /// large or kept.
    pub(crate) fn at_entry(memory: &[u8], bound: u32, kept: &[bool]) -> Marks
        requires few { length memory.now ≤ MAX_MEMORY }
        requires whole { length memory.now % 4 ≡ 0 }
        ensures wide { length result.registers ≡ 11 }
        ensures registers { (n : ℕ) → has_mark result.registers n ≡ false }
        ensures bytes { AreMarksOf (record { number = bound; kept = kept.now }) result.bytes memory.now }
    {
        let mut marks = Marks {
            registers: [false; REGISTERS],
            bytes: [false; MAX_BYTES],
        };
        for k in 0..memory.len() / WORD_BYTES as usize {
            let unseen = is_kept(kept, k) || word_at(memory, k) >= bound;
            marks.mark_bytes(WORD_BYTES * k as u32, WORD_BYTES, unseen);
        }
        marks
    }

    /// Returns true if r0 is marked.
    pub(crate) fn is_answer_marked(&self) -> bool
        ensures { result ≡ has_mark self.now.registers 0 }
    {
        self.registers[0]
    }

    /// Returns the first of this many bytes of memory that is marked, though its word isn't kept.
    pub(crate) fn marked_byte(&self, kept: &[bool], count: u32) -> Option<u32>
        requires { count ≤ MAX_MEMORY }
        ensures { IfNone result (StayInKept kept.now count (λ p. has_mark self.now.bytes p)) }
    {
        for byte in 0..count {
            if self.bytes[byte as usize] && !is_kept(kept, (byte / WORD_BYTES) as usize) {
                return Some(byte);
            }
        }
        None
    }

    fn has_mark(&self, register: Reg) -> bool
        ensures { result ≡ register_marked self.now register }
    {
        self.registers[register.number() as usize]
    }

    fn operand_marked(&self, operand: Operand) -> bool
        ensures { result ≡ operand_marked self.now operand }
    {
        match operand {
            Operand::Imm(_) => false,
            Operand::Reg(register) => self.has_mark(register),
        }
    }

    fn mark(&mut self, register: Reg, marked: bool)
        ensures { self.new ≡ with_mark self.old register marked }
    {
        self.registers[register.number() as usize] = marked;
    }

    /// Marks r0 or doesn't, as its answer is large; r1 to r5 are unset.
    fn mark_answer(&mut self, marked: bool)
        ensures { self.new ≡ with_answer self.old marked }
    {
        self.registers[1] = false;
        self.registers[2] = false;
        self.registers[3] = false;
        self.registers[4] = false;
        self.registers[5] = false;
        self.registers[0] = marked;
    }

    /// Marks these bytes, or takes their marks away.
    fn mark_bytes(&mut self, first: u32, count: u32, marked: bool)
        requires { first + count ≤ MAX_MEMORY }
        ensures { self.new ≡ (record self.old { bytes = with_byte_marks self.old.bytes first count marked }) }
    {
        if count == 0 {
            return;
        }
        self.bytes[first as usize] = marked;
        self.mark_bytes(first + 1, count - 1, marked);
    }

    /// Returns true if one of the bytes is marked.
    fn touches_marked(&self, first: u32, count: u32) -> bool
        requires { first + count ≤ MAX_MEMORY }
        ensures { result ≡ touches_marked self.now.bytes first count }
    {
        if count == 0 {
            return false;
        }
        self.bytes[first as usize] || self.touches_marked(first + 1, count - 1)
    }

    /// Returns true if all of the bytes are marked.
    fn all_marked(&self, first: u32, count: u32) -> bool
        requires { first + count ≤ MAX_MEMORY }
        ensures { result ≡ all_marked self.now.bytes first count }
    {
        if count == 0 {
            return true;
        }
        self.bytes[first as usize] && self.all_marked(first + 1, count - 1)
    }

    /// Returns true if the access takes a whole word that isn't kept, and that is large still.
    fn takes_large(&self, kept: &[bool], first: u32, count: u32) -> bool
        requires { first + count ≤ MAX_MEMORY }
        ensures { result ≡ takes_large kept.now self.now.bytes first count }
    {
        is_whole_word(first, count)
            && !is_kept(kept, (first / WORD_BYTES) as usize)
            && self.all_marked(first, count)
    }

    /// Marks the register of a load if it takes a large word. Returns false if another load takes marked bytes.
    fn keep_load(&mut self, kept: &[bool], dst: Reg, first: u32, count: u32) -> bool
        requires { first + count ≤ MAX_MEMORY }
        ensures { IsTrue result → after_load kept.now self.old dst first count ≡ Some self.new }
    {
        if self.takes_large(kept, first, count) {
            self.mark(dst, true);
            return true;
        }
        if self.touches_marked(first, count) {
            return false;
        }
        self.mark(dst, false);
        true
    }

    /// Returns true if the comparison comes out alike.
    fn is_compared(&self, view: StepView, cond: Cond, width: Width, dst: Reg, src: Operand) -> bool
        ensures { IsTrue result → comparison_decided (register_marked self.now dst) (operand_marked self.now src)
            view.entry.bound cond width (word_of view.entry.state.now dst) (operand_of view.entry.state.now src)
            ≡ true }
    {
        match (self.has_mark(dst), self.operand_marked(src)) {
            (false, false) => true,
            (true, false) => match operand_number(view.state, src) {
                Some(number) => decides_left(view.bound, cond, low_bits(width, number)),
                None => false,
            },
            (false, true) => match number_of(view.state, dst) {
                Some(number) => decides_right(view.bound, cond, low_bits(width, number)),
                None => false,
            },
            (true, true) => false,
        }
    }

    /// Marks the answer of a helper, if it is large. Returns false if an argument is marked.
    fn keep_call(&mut self, view: StepView, id: i32) -> bool
        ensures { IsTrue result → after_helper view.entry.bound view.entry.env.now view.entry.state.now (helper_of id)
            self.old ≡ Some self.new }
    {
        match Helper::of(id) {
            None => false,
            Some(Helper::Id | Helper::Coin) => {
                self.mark_answer(false);
                true
            }
            Some(Helper::Recv) => self.keep_message(view),
            Some(Helper::Send) => {
                if self.has_mark(Reg::R1) || self.has_mark(Reg::R2) {
                    return false;
                }
                self.mark_answer(false);
                true
            }
        }
    }

    /// Marks a message, if it is large. Returns false if its sender is marked.
    fn keep_message(&mut self, view: StepView) -> bool
        ensures { IsTrue result → after_helper view.entry.bound view.entry.env.now view.entry.state.now (Some Recv)
            self.old ≡ Some self.new }
    {
        if self.has_mark(Reg::R1) {
            return false;
        }
        match number_of(view.state, Reg::R1) {
            Some(sender) if sender < u64::from(view.env.shape().nodes()) => {
                let large = view.env.recv(sender as u32) >= view.bound;
                self.mark_answer(large);
                true
            }
            Some(_) | None => false,
        }
    }

    /// Returns the region of an access by a register that isn't marked, and its first byte there.
    fn accessed(&self, view: StepView, base: Reg, off: i16, count: u32) -> Option<(Region, u32)>
        requires { count ≤ 8 }
        ensures plain { IfSome result (λ at. register_marked self.now base ≡ false) }
        ensures value { IfSome result (λ at. place_from view.entry.env.now (word_of view.entry.state.now base) off count
            ≡ Ok at) }
        ensures inside { IfSome result (λ at. at.0 ≡ Mem → at.1 + count ≤ MAX_MEMORY) }
    {
        if self.has_mark(base) {
            return None;
        }
        place(view.env, view.state.register(base)?, off, count)
    }

    /// Follows a load. Returns false if it takes marked bytes, but no large word.
    fn keep_loaded(&mut self, view: StepView, size: Size, dst: Reg, base: Reg, off: i16) -> bool
        ensures { IsTrue result → marks_after (bound_in view.entry) view.entry.env.now view.entry.state.now
            (i.Load size dst base off) self.old ≡ Some self.new }
    {
        match self.accessed(view, base, off, size.bytes()) {
            None => false,
            Some((Region::Stack, _)) => {
                self.mark(dst, false);
                true
            }
            Some((Region::Mem, first)) => self.keep_load(view.kept, dst, first, size.bytes()),
        }
    }

    /// Follows a load that extends the sign. Returns false if it takes marked bytes.
    fn keep_extended(&mut self, view: StepView, size: SxSize, dst: Reg, base: Reg, off: i16) -> bool
        ensures { IsTrue result → marks_after (bound_in view.entry) view.entry.env.now view.entry.state.now
            (i.LoadSx size dst base off) self.old ≡ Some self.new }
    {
        match self.accessed(view, base, off, size.bytes()) {
            None => return false,
            Some((Region::Stack, _)) => {}
            Some((Region::Mem, first)) => {
                if self.touches_marked(first, size.bytes()) {
                    return false;
                }
            }
        }
        self.mark(dst, false);
        true
    }

    /// Takes away the marks of the bytes that are stored. Returns false if it isn't known which.
    fn keep_stored(&mut self, view: StepView, size: Size, base: Reg, off: i16) -> bool
        ensures { IsTrue result → (if register_marked self.old base then None
            else at_place (place_from view.entry.env.now (word_of view.entry.state.now base) off (access_bytes size))
            (λ first. Some (after_store self.old first (access_bytes size))) (Some self.old)) ≡ Some self.new }
    {
        match self.accessed(view, base, off, size.bytes()) {
            None => false,
            Some((Region::Stack, _)) => true,
            Some((Region::Mem, first)) => {
                self.mark_bytes(first, size.bytes(), false);
                true
            }
        }
    }

    /// Marks a register that a move writes, if the operand is marked.
    fn keep_move(&mut self, dst: Reg, src: Operand) -> bool
        ensures marks { self.new ≡ with_mark self.old dst (operand_marked self.old src) }
        ensures kept { IsTrue result }
    {
        let marked = self.operand_marked(src);
        self.mark(dst, marked);
        true
    }

    /// Takes away the mark of a register that is written. Returns false if what is read is marked.
    fn keep_plain(&mut self, marked: bool, dst: Reg) -> bool
        ensures { IsTrue result → if_plain marked (with_mark self.old dst false) ≡ Some self.new }
    {
        if marked {
            return false;
        }
        self.mark(dst, false);
        true
    }

    /// Follows a load or a store. Returns false if it may tell large numbers apart.
    fn keep_access(&mut self, view: StepView, insn: &Insn) -> bool
        ensures { IsTrue result → marks_after (bound_in view.entry) view.entry.env.now view.entry.state.now
            insn.now self.old ≡ Some self.new }
    {
        match *insn {
            Insn::Load {
                size,
                dst,
                base,
                off,
            } => self.keep_loaded(view, size, dst, base, off),
            Insn::LoadSx {
                size,
                dst,
                base,
                off,
            } => self.keep_extended(view, size, dst, base, off),
            Insn::StoreReg {
                size,
                base,
                off,
                src,
            } => !self.has_mark(src) && self.keep_stored(view, size, base, off),
            Insn::StoreImm {
                size,
                base,
                off,
                ..
            } => self.keep_stored(view, size, base, off),
            _ => false,
        }
    }

    /// Follows the instruction at the state's slot. Returns false if it may tell large numbers apart.
    pub(crate) fn keep(&mut self, view: StepView, insn: &Insn) -> bool
        ensures { IsTrue result → marks_after (bound_in view.entry) view.entry.env.now view.entry.state.now
            insn.now self.old ≡ Some self.new }
    {
        match *insn {
            Insn::Alu { op, dst, src, .. } => match op {
                AluOp::Mov => self.keep_move(dst, src),
                _ => self.keep_plain(self.has_mark(dst) || self.operand_marked(src), dst),
            },
            Insn::Neg { dst, .. } | Insn::Swap { dst, .. } => {
                self.keep_plain(self.has_mark(dst), dst)
            }
            Insn::Movsx { dst, src, .. } => self.keep_plain(self.has_mark(src), dst),
            Insn::Ja { .. } | Insn::JaLong { .. } => true,
            Insn::Branch {
                cond,
                width,
                dst,
                src,
                ..
            } => self.is_compared(view, cond, width, dst, src),
            Insn::Call { id } => self.keep_call(view, id),
            Insn::Exit => false,
            Insn::Load { .. }
            | Insn::LoadSx { .. }
            | Insn::StoreReg { .. }
            | Insn::StoreImm { .. } => self.keep_access(view, insn),
            Insn::LoadImm64 { dst, .. } => self.keep_plain(false, dst),
        }
    }

    /// Returns the first of these bytes that is marked and in a kept word, if there is one. Nothing is promised of it.
    fn kept_byte_at(&self, kept: &[bool], first: u32, count: u32) -> Option<u32>
        requires { first + count ≤ MAX_MEMORY }
    {
        for byte in first..first + count {
            if self.bytes[byte as usize] && is_kept(kept, (byte / WORD_BYTES) as usize) {
                return Some(byte);
            }
        }
        None
    }

    /// Returns the first marked byte of a kept word that a load by a register takes. Nothing is promised of it.
    fn kept_byte_by(&self, view: StepView, base: Reg, off: i16, count: u32) -> Option<u32>
        requires { count ≤ 8 }
    {
        match self.accessed(view, base, off, count)? {
            (Region::Mem, first) => self.kept_byte_at(view.kept, first, count),
            (Region::Stack, _) => None,
        }
    }

    /// Returns the first marked byte of a kept word that an instruction loads, if there is one. Nothing is promised of
    /// it.
    pub(crate) fn kept_byte(&self, view: StepView, insn: &Insn) -> Option<u32> {
        match *insn {
            Insn::Load {
                size,
                base,
                off,
                ..
            } => self.kept_byte_by(view, base, off, size.bytes()),
            Insn::LoadSx {
                size,
                base,
                off,
                ..
            } => self.kept_byte_by(view, base, off, size.bytes()),
            _ => None,
        }
    }
}
