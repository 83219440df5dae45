ghost use Rattle.std.specs.Prelude.{◌≡◌, ◌≢◌, ◌<◌, ℕ, List, Option, All};
ghost use Rattle.forest_ops.specs.declared.operation.Op.{Op};
ghost use Rattle.script_text.specs.Grammar.{HasFault, Says};
ghost use Rattle.script_text.specs.Replies.{escaped};
ghost use Rattle.script_text.specs.Scripts.{IsScript, IsFirstBad};
ghost use Rattle.script_text.specs.Words.{SaysName};
ghost use Rattle.script_text.specs.declared.reading.Line.{Line};
ghost use Rattle.script_text.specs.declared.reading.LineFault.{LineFault};

/// A line says at most one thing to one client.
pub fn one_operation()
    ensures { (line : List ℕ) (c d : ℕ) (a b : Option Op) → Says line c a → Says line d b
        → (c ≡ d) × (a ≡ b) }
{}

/// A line has at most one fault, and none where it says something.
pub fn one_fault()
    ensures fault { (line : List ℕ) (a b : LineFault) → HasFault line a → HasFault line b → a ≡ b }
    ensures none { (line : List ℕ) (client : ℕ) (said : Option Op) (fault : LineFault)
        → Says line client said → ¬ HasFault line fault }
{}

/// Lines have at most one script.
pub fn one_script()
    ensures { (lines : List (List ℕ)) (a b : List Line) → IsScript lines a → IsScript lines b
        → a ≡ b }
{}

/// Lines that have a script have no bad line.
pub fn one_reading()
    ensures { (lines : List (List ℕ)) (script : List Line) (number : ℕ) (cause : LineFault)
        → IsScript lines script → IsFirstBad lines number cause → ⊥ }
{}

/// In a script each line is for one of the 16 clients.
pub fn clients_are_below_16()
    ensures { (lines : List (List ℕ)) (script : List Line) → IsScript lines script
        → All (λ line. line.client < 16) script }
{}

/// A name that is printed, in which no byte is `/`, reads as itself.
pub fn printed_names_are_read()
    ensures { (name : List ℕ) → All (λ byte. (byte < 256) × (byte ≢ 47)) name
        → SaysName (escaped name) name }
{}
