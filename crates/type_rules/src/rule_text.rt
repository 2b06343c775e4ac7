//! The names of the rules of types, and what they ask in words.
ghost use Rattle.std.specs.Prelude.{◌≡◌};
ghost use Rattle.type_rules.specs.RuleNames.{type_rule_name};

use crate::fault::TypeRule;

impl TypeRule {
    /// The name, as a refusal prints it.
    pub fn name(self) -> &'static str
        ensures { result.now ≡ type_rule_name self }
    {
        match self {
            TypeRule::CatchType => "CatchType",
            TypeRule::NoFrame => "NoFrame",
            TypeRule::Mismatch => "Mismatch",
            TypeRule::Handler => "Handler",
            TypeRule::Stack => "Stack",
            TypeRule::Local => "Local",
            TypeRule::Depth => "Depth",
            TypeRule::Kind => "Kind",
            TypeRule::Target => "Target",
            TypeRule::FallsOff => "FallsOff",
        }
    }

    /// What is wrong where the rule is broken, in words.
    pub fn text(self) -> &'static str {
        match self {
            TypeRule::CatchType => {
                "the class that a handler catches is not java/lang/Throwable or below it"
            }
            TypeRule::NoFrame => {
                "nothing flows into this instruction, and no stack map frame is stated for it"
            }
            TypeRule::Mismatch => {
                "what flows into this instruction is not assignable to the stack map frame that is stated for it"
            }
            TypeRule::Handler => {
                "a handler around this instruction has no stated stack map frame, or the locals here, with the caught class alone on the stack, are not assignable to it"
            }
            TypeRule::Stack => "the stack does not hold what this instruction takes",
            TypeRule::Local => "a local variable does not hold what this instruction needs",
            TypeRule::Depth => "the stack would become deeper than max_stack",
            TypeRule::Kind => "a further condition of this instruction does not hold",
            TypeRule::Target => {
                "a jump target has no stated stack map frame, or the frame behind this instruction is not assignable to it"
            }
            TypeRule::FallsOff => "control flows past the last instruction of the code",
        }
    }
}
