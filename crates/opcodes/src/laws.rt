//! What holds of all code.

ghost use Rattle.std.specs.Prelude.{◌≡◌, ℕ, List};
ghost use Rattle.model.specs.Bytecode.{IsCode, instructions_of};
ghost use Rattle.model.specs.declared.bytecode.Located.{Located};

/// Bytes are the code of one list of instructions at most, and a list of instructions has one spelling at most.
pub fn one_spelling()
    ensures instructions { (bytes : List ℕ) (a b : List Located) → IsCode bytes a → IsCode bytes b → a ≡ b }
    ensures bytes { (x y : List ℕ) (a b : List Located) → IsCode x a → IsCode y b
        → instructions_of a ≡ instructions_of b → x ≡ y }
{}
