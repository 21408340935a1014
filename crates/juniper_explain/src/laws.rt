//! Laws of explanations. Each function does nothing; its contract is the law.

ghost use Rattle.std.specs.Prelude.{◌≡◌, Bool, List, []};
ghost use Rattle.std.specs.List.{flat_map};
ghost use Rattle.graphql_spec.specs.Documents.{Document, VariableDefinition};
ghost use Rattle.graphql_spec.specs.Inputs.{Variables};
ghost use Rattle.graphql_spec.specs.Requests.{variable_errors};
ghost use Rattle.graphql_spec.specs.Rules.{rule_errors};
ghost use Rattle.graphql_spec.specs.Schema.{Schema};
ghost use Rattle.juniper_explain.specs.Explanations.{errors_at};
ghost use Rattle.juniper_explain.specs.GivenValues.{error_for, variable_explanations, variable_reasons};
ghost use Rattle.juniper_explain.specs.Nodes.{explanations, judgements};

/// The list of errors and their explanations are made of the same findings: where a rule finds something at a definition, its
/// error is listed, and what it finds is explained; where it finds nothing, neither.
pub fn errors_are_explained()
    ensures { (s : Schema) (disabled : Bool) (d : Document) → rule_errors s disabled d ≡ flat_map errors_at (judgements s disabled d) }
{}

/// Nothing is explained exactly where no error is listed: of a valid document, and of no other.
pub fn valid_documents_are_not_explained()
    ensures { (s : Schema) (disabled : Bool) (d : Document) →
        (rule_errors s disabled d ≡ [] → explanations s disabled d ≡ []) × (explanations s disabled d ≡ [] → rule_errors s disabled d ≡ []) }
{}

/// The list of errors of given values and their explanations are made of the same reasons: where there is a reason why a
/// variable has no fitting value, its error is listed, and each reason is explained where the variable is defined; where there
/// is none, neither (6.1.2).
pub fn unfit_values_are_explained()
    ensures { (s : Schema) (vs : List VariableDefinition) (given : Variables) →
        variable_errors s vs given ≡ flat_map (λ v. error_for v (variable_reasons s v (given v.name.item))) vs }
{}

/// No value is explained exactly where no error is listed: where each variable has a fitting value.
pub fn fitting_values_are_not_explained()
    ensures { (s : Schema) (vs : List VariableDefinition) (given : Variables) →
        (variable_errors s vs given ≡ [] → variable_explanations s vs given ≡ []) × (variable_explanations s vs given ≡ [] → variable_errors s vs given ≡ []) }
{}
