// The rules that a source keeps beside its grammar.
ghost use Rattle.std.specs.Prelude.{◌≡◌};
ghost use Rattle.dc_program.specs.Rules.{number_of};

/// A rule, by what breaks it.
#[derive(Clone, Copy, Debug, PartialEq, Eq)]
pub enum Rule {
    /// 1: a name is used that isn't declared, or a type-name or quantifier has a tag that isn't declared.
    Undeclared,
    /// 2: a name is declared again in one scope, or a function or tag gets a second body.
    DeclaredTwice,
    /// 3: a permitted second declaration has another type.
    DeclaredDifferently,
    /// 4: the type words are no type, or the storage words are more than one.
    NoType,
    /// 5: a complete type is needed and isn't there.
    Incomplete,
    /// 6: an array length is no integer constant above 0, or an enumerator's value or a label is no integer constant.
    NoConstant,
    /// 7: a type has more than 16,777,216 bytes, or there are more than 32,767 functions and variables of file scope.
    TooLarge,
    /// 8: a struct has no member, or two of one name.
    StructMembers,
    /// 9: a function takes or gives a struct, or gives an array or function, or an array or member is a function.
    ByValue,
    /// 10: a local is static, extern, inline or a function.
    LocalStorage,
    /// 11: a decimal literal without `u` is above 2^63 - 1.
    LiteralTooLarge,
    /// 12: an enumerator's value doesn't fit int.
    EnumeratorTooLarge,
    /// 13: a name that is predefined or built in is declared, or named elsewhere than it may be.
    ReservedName,
    /// 14: an integer operand is needed.
    IntegerNeeded,
    /// 15: a truth value is needed, and the operand isn't a number or pointer.
    TruthNeeded,
    /// 16: `*` stands before no pointer to a complete object type or a function type.
    NoPointer,
    /// 17: a member is asked of no struct, or isn't there.
    NoMember,
    /// 18: an index isn't a pointer or array and an integer.
    NoIndex,
    /// 19: `&` stands before neither an lvalue nor a function.
    NoPlace,
    /// 20: the left side of an assignment is no lvalue, or is const, an array or a function.
    NotAssignable,
    /// 21: a value can't be assigned to the type.
    WrongValue,
    /// 22: two operands can't be compared.
    Incomparable,
    /// 23: two operands have no sum or difference.
    NoSum,
    /// 24: there is no such cast.
    NoCast,
    /// 25: the arms of `?:` have no common type.
    ArmsDiffer,
    /// 26: what is called is no function, or the arguments differ in number.
    NoCall,
    /// 27: `sizeof` of a function, of void or of an unknown struct.
    NoSize,
    /// 28: a side effect or a call stands inside an expression.
    EffectInside,
    /// 29: an initializer has too many members, braces round no array or struct, or at file scope no constant.
    WrongInitializer,
    /// 30: `break` or `continue` has no loop, or `break` no switch either.
    NoLoop,
    /// 31: `case` or `default` doesn't stand directly in the block of a switch.
    NoSwitch,
    /// 32: a label of a switch stands twice.
    LabelTwice,
    /// 33: `return` has a value in a void function, or none in another.
    WrongReturn,
    /// 34: the statement of a switch is no block, or a declaration stands directly in it.
    SwitchBody,
    /// 35: two declarations of one function have clauses, or clauses stand at no function.
    ClausesElsewhere,
    /// 36: a clause has a side effect or a call, or in a function's clause the address of a parameter.
    EffectInClause,
    /// 37: `__CPROVER_old` or `__CPROVER_return_value` stands outside ensures, or `__CPROVER_loop_entry` outside a loop's
    /// invariants and measures.
    HistoryElsewhere,
    /// 38: these are nested, hold a predicate or a quantifier, or have no number or pointer as argument.
    HistoryNested,
    /// 39: a predicate stands where it may not, or has operands of other types.
    PredicateElsewhere,
    /// 40: a quantifier stands outside clauses or isn't of its form.
    WrongQuantifier,
    /// 41: a target is no lvalue and no target form, or in a frees clause no object pointer.
    WrongTarget,
    /// 42: a target of a function's clause is a parameter itself.
    ParameterTarget,
    /// 43: loop clauses stand at `do` or at a loop without an assigns clause, or the measures stand twice or are no integers.
    WrongLoopClauses,
    /// 44: the second operand of `__CPROVER_obeys_contract` is no declared function of the pointer's type.
    NoContract,
}

impl Rule {
    /// The number of the rule, from 1, as a refusal names it.
    pub fn number(self) -> u8
        ensures { result ≡ number_of self }
    {
        match self {
            Rule::Undeclared => 1,
            Rule::DeclaredTwice => 2,
            Rule::DeclaredDifferently => 3,
            Rule::NoType => 4,
            Rule::Incomplete => 5,
            Rule::NoConstant => 6,
            Rule::TooLarge => 7,
            Rule::StructMembers => 8,
            Rule::ByValue => 9,
            Rule::LocalStorage => 10,
            Rule::LiteralTooLarge => 11,
            Rule::EnumeratorTooLarge => 12,
            Rule::ReservedName => 13,
            Rule::IntegerNeeded => 14,
            Rule::TruthNeeded => 15,
            Rule::NoPointer => 16,
            Rule::NoMember => 17,
            Rule::NoIndex => 18,
            Rule::NoPlace => 19,
            Rule::NotAssignable => 20,
            Rule::WrongValue => 21,
            Rule::Incomparable => 22,
            Rule::NoSum => 23,
            Rule::NoCast => 24,
            Rule::ArmsDiffer => 25,
            Rule::NoCall => 26,
            Rule::NoSize => 27,
            Rule::EffectInside => 28,
            Rule::WrongInitializer => 29,
            Rule::NoLoop => 30,
            Rule::NoSwitch => 31,
            Rule::LabelTwice => 32,
            Rule::WrongReturn => 33,
            Rule::SwitchBody => 34,
            Rule::ClausesElsewhere => 35,
            Rule::EffectInClause => 36,
            Rule::HistoryElsewhere => 37,
            Rule::HistoryNested => 38,
            Rule::PredicateElsewhere => 39,
            Rule::WrongQuantifier => 40,
            Rule::WrongTarget => 41,
            Rule::ParameterTarget => 42,
            Rule::WrongLoopClauses => 43,
            Rule::NoContract => 44,
        }
    }
}
