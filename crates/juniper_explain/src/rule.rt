//! The rules of validation (section 5 of the Specification).

ghost use Rattle.std.specs.Prelude.{◌≡◌};
ghost use Rattle.juniper_explain.specs.Explanations.{rule_text};

/// A rule of validation, in the order in which errors are listed at a definition: ten on names, eight on types, and four on
/// uses.
#[derive(Clone, Copy, Debug, Eq, PartialEq)]
pub enum Rule {
    /// No two operations have one name (5.2.1.1).
    UniqueOperationNames,
    /// An operation without name is the only one (5.2.2.1).
    LoneAnonymousOperation,
    /// No two fragments have one name (5.5.1.1).
    UniqueFragmentNames,
    /// Each fragment that is spread is defined (5.5.2.1).
    KnownFragmentNames,
    /// No fragment's spreads lead to it (5.5.2.2).
    NoFragmentCycles,
    /// No two variables of an operation have one name (5.8.1).
    UniqueVariableNames,
    /// No two arguments of a field or directive have one name (5.4.2).
    UniqueArgumentNames,
    /// No two fields of an object value have one name (5.6.3).
    UniqueInputFieldNames,
    /// Each directive is one that every schema has (5.7.1).
    KnownDirectives,
    /// The types of conditions and variables are declared (2.11, 5.5.1.2).
    KnownTypeNames,
    /// Type conditions are objects, interfaces or unions (5.5.1.3).
    FragmentsOnCompositeTypes,
    /// Variables are of scalars, enums and input objects (5.8.2).
    VariablesAreInputTypes,
    /// Each field is one of its parent type (5.3.1).
    FieldsOnCorrectType,
    /// A selection set stands on composite types, and on these alone (5.3.3).
    ScalarLeafs,
    /// Each argument is declared (5.4.1).
    KnownArgumentNames,
    /// Each non-null argument without a default is given (5.4.2.1).
    ProvidedNonNullArguments,
    /// Each argument's value fits its type (5.6.1).
    ArgumentsOfCorrectType,
    /// The default of a variable fits its type (5.6.1).
    DefaultValuesOfCorrectType,
    /// Each variable that an operation uses is one that it defines (5.8.3).
    NoUndefinedVariables,
    /// Each variable may stand where it does (5.8.5).
    VariablesInAllowedPosition,
    /// The fields of a selection set can be merged (5.3.2).
    OverlappingFieldsCanBeMerged,
    /// Where introspection is disabled, nothing asks for it; this rule is this project's own.
    DisableIntrospection,
}

impl Rule {
    /// The text of the error that [`validate`](juniper_rules::validate) lists at a definition that violates the rule.
    #[tactic(auto, unfolding(crate::specs::Explanations::rule_text))]
    pub fn message(self) -> &'static str
        ensures { result.now ≡ rule_text self }
    {
        match self {
            Rule::UniqueOperationNames => "Operation name is not unique",
            Rule::LoneAnonymousOperation => "Anonymous operation is not alone",
            Rule::UniqueFragmentNames => "Fragment name is not unique",
            Rule::KnownFragmentNames => "Unknown fragment",
            Rule::NoFragmentCycles => "Fragment spreads itself",
            Rule::UniqueVariableNames => "Variable name is not unique",
            Rule::UniqueArgumentNames => "Argument name is not unique",
            Rule::UniqueInputFieldNames => "Input field name is not unique",
            Rule::KnownDirectives => "Unknown directive",
            Rule::KnownTypeNames => "Unknown type",
            Rule::FragmentsOnCompositeTypes => "Fragment on a type without fields",
            Rule::VariablesAreInputTypes => "Variable is not of an input type",
            Rule::FieldsOnCorrectType => "Unknown field",
            Rule::ScalarLeafs => "Selection set does not fit the field",
            Rule::KnownArgumentNames => "Unknown argument",
            Rule::ProvidedNonNullArguments => "Argument is missing",
            Rule::ArgumentsOfCorrectType => "Argument does not fit its type",
            Rule::DefaultValuesOfCorrectType => "Default value does not fit its type",
            Rule::NoUndefinedVariables => "Variable is not defined",
            Rule::VariablesInAllowedPosition => "Variable may not stand here",
            Rule::OverlappingFieldsCanBeMerged => "Fields cannot be merged",
            Rule::DisableIntrospection => "Introspection is disabled",
        }
    }
}
