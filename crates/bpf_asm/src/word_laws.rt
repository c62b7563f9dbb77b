//! Laws of words: they are one table, which serves reading and printing.

ghost use Rattle.std.specs.Prelude.{◌≡◌, ℕ, ℤ, List, Some};
ghost use Rattle.bpf_insn.specs.declared.forms.Reg.{Reg};
ghost use Rattle.bpf_asm.specs.declared.words.Form.{Form};
ghost use Rattle.node_env.specs.declared.helper.Helper.{Helper};
ghost use Rattle.node_env.specs.Helpers.{helper_word, helper_number, helper_by_word, helper_of};
ghost use Rattle.bpf_asm.specs.Words.{form_word, form_of};
ghost use Rattle.bpf_asm.specs.Words.{register_word, register_by_word};

/// States that each form has a word of its own, and that no other word names one.
pub fn one_word_each()
    ensures form { (form : Form) → form_of (form_word form) ≡ Some form }
    ensures word { (word : List ℕ) (form : Form) → form_of word ≡ Some form → word ≡ form_word form }
{}

/// States that each helper has a word and a number of its own, and that no other names one.
pub fn one_helper_each()
    ensures by_word { (helper : Helper) → helper_by_word (helper_word helper) ≡ Some helper }
    ensures by_number { (helper : Helper) → helper_of (helper_number helper) ≡ Some helper }
    ensures word { (word : List ℕ) (helper : Helper) → helper_by_word word ≡ Some helper → word ≡ helper_word helper }
    ensures number { (number : ℤ) (helper : Helper) → helper_of number ≡ Some helper →
        number ≡ helper_number helper }
{}

/// States that each register has a word of its own, and that no other word names one.
pub fn one_register_each()
    ensures register { (register : Reg) → register_by_word (register_word register) ≡ Some register }
    ensures word { (word : List ℕ) (register : Reg) → register_by_word word ≡ Some register →
        word ≡ register_word register }
{}
