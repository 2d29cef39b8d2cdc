//! The rules of the language, each with its number. A docstring says what breaks the rule; docs/LANGUAGE.md says where it is told.

/// A line has `E` or `S` in column 1.
pub const EXPONENT_OR_SUBSCRIPT_LINE: u16 = 101;

/// Column 1 of a line holds a byte that names no kind of line.
pub const UNKNOWN_KIND_OF_LINE: u16 = 102;

/// INCLUDE has another form than `INCLUDE TEMPLATE NAME`, or stands on a main line.
pub const MALFORMED_INCLUDE: u16 = 103;

/// A byte begins no word.
pub const STRAY_BYTE: u16 = 201;

/// A literal is still open where its line ends, or a comment where its file ends.
pub const UNENDED_LITERAL_OR_COMMENT: u16 = 202;

/// A name has more bytes than `NAME_LIMIT`.
pub const NAME_TOO_LONG: u16 = 203;

/// A literal is too large or too long, or has a digit that its base lacks.
pub const INVALID_LITERAL: u16 = 204;

/// The text that replaces a name holds that name, itself or through other replacements.
pub const RECURSIVE_REPLACEMENT: u16 = 205;

/// A unit has more words than `TOKEN_LIMIT`.
pub const TOO_MANY_WORDS_IN_UNIT: u16 = 206;

/// REPLACE isn't in its form.
pub const MALFORMED_REPLACE: u16 = 207;

/// A letter or an underscore follows a number directly.
pub const LETTER_BEHIND_NUMBER: u16 = 208;

/// The word SCALAR is left out.
pub const SCALAR_LEFT_OUT: u16 = 301;

/// The word VECTOR is left out.
pub const VECTOR_LEFT_OUT: u16 = 302;

/// The word MATRIX is left out.
pub const MATRIX_LEFT_OUT: u16 = 303;

/// The sign `/` is left out.
pub const SLASH_LEFT_OUT: u16 = 304;

/// The word GO is left out.
pub const GO_LEFT_OUT: u16 = 305;

/// The word READALL is left out.
pub const READALL_LEFT_OUT: u16 = 306;

/// The word FILE is left out.
pub const FILE_LEFT_OUT: u16 = 307;

/// The word SKIP is left out.
pub const SKIP_LEFT_OUT: u16 = 308;

/// The word TAB is left out.
pub const TAB_LEFT_OUT: u16 = 309;

/// The word COLUMN is left out.
pub const COLUMN_LEFT_OUT: u16 = 310;

/// The word LINE is left out.
pub const LINE_LEFT_OUT: u16 = 311;

/// The word PAGE is left out.
pub const PAGE_LEFT_OUT: u16 = 312;

/// REPLACE has parameters, which are left out.
pub const REPLACE_PARAMETERS_LEFT_OUT: u16 = 313;

/// The word NAME is left out.
pub const NAME_LEFT_OUT: u16 = 314;

/// The word SUBBIT is left out.
pub const SUBBIT_LEFT_OUT: u16 = 315;

/// The sign `%` is left out.
pub const PERCENT_SIGN_LEFT_OUT: u16 = 316;

/// The word NONHAL is left out.
pub const NONHAL_LEFT_OUT: u16 = 317;

/// The word ACCESS is left out.
pub const ACCESS_LEFT_OUT: u16 = 318;

/// The word REMOTE is left out.
pub const REMOTE_LEFT_OUT: u16 = 319;

/// The word EQUATE is left out.
pub const EQUATE_LEFT_OUT: u16 = 320;

/// The sign `@` is left out.
pub const AT_SIGN_LEFT_OUT: u16 = 321;

/// A number with a point isn't the whole of a time.
pub const DECIMAL_NOT_A_TIME: u16 = 322;

/// Data, a part of a structure or a FUNCTION have no type.
pub const MISSING_TYPE: u16 = 323;

/// TEMPORARY doesn't stand directly behind DO FOR.
pub const MISPLACED_TEMPORARY: u16 = 324;

/// A structure has the name of its template.
pub const VARIABLE_NAMED_AS_TEMPLATE: u16 = 325;

/// A part of a structure is itself made by a template.
pub const NESTED_TEMPLATE: u16 = 326;

/// An event is an array, a part of a structure or a parameter.
pub const MISPLACED_EVENT: u16 = 327;

/// An exponent is no integer literal.
pub const EXPONENT_NOT_A_LITERAL: u16 = 328;

/// SUM, PROD, MAX or MIN is called, which are left out.
pub const ARRAY_FUNCTION_LEFT_OUT: u16 = 329;

/// The words of a file spell no unit.
pub const SYNTAX_ERROR: u16 = 401;

/// A set has no image that can run.
pub const NO_IMAGE: u16 = 410;

/// A template that is written differs from the one that its unit gives.
pub const DIFFERING_TEMPLATE: u16 = 501;

/// No unit of the set is that of a template.
pub const TEMPLATE_WITHOUT_UNIT: u16 = 502;

/// Two files have units of the same name.
pub const REPEATED_UNIT_NAME: u16 = 503;

/// A name isn't declared where it can be seen.
pub const UNKNOWN_NAME: u16 = 601;

/// A name is declared twice in a block, under a parent or by a file's templates.
pub const REPEATED_NAME: u16 = 602;

/// A name is one of something else than its place asks for.
pub const WRONG_KIND_OF_NAME: u16 = 603;

/// CLOSE or END names another block or group than the one that it ends.
pub const WRONG_CLOSING_NAME: u16 = 604;

/// EXIT or REPEAT names no group that it stands in.
pub const NO_GROUP_OF_NAME_AROUND: u16 = 605;

/// A parameter isn't declared as data in its block.
pub const UNDECLARED_PARAMETER: u16 = 606;

/// EXIT stands in no group, or REPEAT in no loop.
pub const NO_GROUP_AROUND: u16 = 607;

/// A name behind a point is no component of what stands before it.
pub const UNKNOWN_COMPONENT: u16 = 608;

/// An attribute is repeated, or doesn't go together with another one.
pub const CLASHING_ATTRIBUTES: u16 = 701;

/// An operand or a value is of a kind that isn't taken where it stands.
pub const WRONG_KIND_OF_OPERAND: u16 = 702;

/// A condition stands where a value is needed.
pub const CONDITION_AS_VALUE: u16 = 703;

/// What has to be constant isn't, or its value is an error or out of range.
pub const NOT_CONSTANT: u16 = 704;

/// Arguments differ from the parameters in number, kind or shape.
pub const WRONG_ARGUMENTS: u16 = 705;

/// There are neither as many initial values as cells nor one alone.
pub const WRONG_NUMBER_OF_INITIAL_VALUES: u16 = 706;

/// A reference has more or fewer subscripts than its dimensions.
pub const WRONG_NUMBER_OF_SUBSCRIPTS: u16 = 707;

/// Bit strings are compared by another sign than those of equality.
pub const BITS_COMPARED_BY_ORDER: u16 = 708;

/// What receives a value can't be changed.
pub const NOT_ASSIGNABLE: u16 = 709;

/// A dimension, a length, the level of a part, or a number of copies or of dimensions is outside its limits.
pub const SIZE_OUT_OF_RANGE: u16 = 710;

/// RETURN has a value outside a FUNCTION, or none inside one.
pub const MISPLACED_RESULT: u16 = 711;

/// The variable of DO FOR is no INTEGER SINGLE.
pub const LOOP_VARIABLE_NOT_SINGLE: u16 = 712;

/// A time is no integer.
pub const TIME_NOT_AN_INTEGER: u16 = 713;

/// An operand of an event expression is neither an event nor a process.
pub const OPERAND_NOT_AN_EVENT: u16 = 714;

/// SET or RESET has an event that isn't LATCHED.
pub const EVENT_NOT_LATCHED: u16 = 715;

/// What is called is no block of the kind that can be called so.
pub const NOT_CALLABLE: u16 = 716;

/// One AND or OR has bits and a comparison without parentheses.
pub const BITS_BESIDE_COMPARISON: u16 = 717;

/// A channel isn't constant, or isn't below `CHANNEL_COUNT`.
pub const CHANNEL_OUT_OF_RANGE: u16 = 718;

/// The group or the number of an error is outside its limits.
pub const ERROR_OUT_OF_RANGE: u16 = 719;

/// Several elements stand where one is needed.
pub const SEVERAL_ELEMENTS: u16 = 720;

/// An integer, an event or a structure has a component subscript.
pub const MISPLACED_COMPONENT_SUBSCRIPT: u16 = 721;

/// An ASSIGN argument is no data, or a component of data.
pub const WRONG_ASSIGN_ARGUMENT: u16 = 722;

/// A real-time statement names no process.
pub const NOT_A_PROCESS: u16 = 723;

/// A FUNCTION gives an event or a structure.
pub const WRONG_TYPE_OF_FUNCTION: u16 = 724;

/// An attribute of storage or of first values stands on data that can't have it.
pub const MISPLACED_ATTRIBUTE: u16 = 725;

/// Data of a lock group are named outside an UPDATE block.
pub const LOCK_DATA_OUTSIDE_UPDATE: u16 = 801;

/// An UPDATE block stands in another one.
pub const NESTED_UPDATE: u16 = 802;

/// An UPDATE block does what it may not do.
pub const BARRED_IN_UPDATE: u16 = 803;

/// An UPDATE block calls a block that does, at last, what it may not do itself.
pub const BARRED_CALL_IN_UPDATE: u16 = 804;

/// LOCK stands on data that can't have it, or has no group from 1 to 15.
pub const MISPLACED_LOCK: u16 = 805;

/// Data of a lock group are the argument of an ASSIGN parameter without LOCK(*).
pub const LOCK_DATA_PASSED: u16 = 806;

/// RETURN stands in an UPDATE block.
pub const RETURN_IN_UPDATE: u16 = 807;

/// A block calls itself, directly or through others.
pub const RECURSIVE_BLOCK: u16 = 901;

/// Several processes reach a block that isn't REENTRANT.
pub const SHARED_BLOCK_NOT_REENTRANT: u16 = 902;

/// ON ERROR with a statement stands deeper than directly in a body.
pub const NESTED_ON_ERROR: u16 = 903;

/// TASK is the head of a template, or of a block that doesn't stand directly in a PROGRAM.
pub const MISPLACED_TASK: u16 = 904;

/// A set has no PROGRAM.
pub const NO_PROGRAM: u16 = 905;

/// A set has more cells than `CELL_LIMIT`, or its views or shapes reach too many.
pub const TOO_MANY_CELLS: u16 = 951;

/// A set has more processes than `PROCESS_LIMIT`.
pub const TOO_MANY_PROCESSES: u16 = 952;

/// The units of a set have more words together than `TOKEN_SUM_LIMIT`.
pub const TOO_MANY_WORDS_IN_SET: u16 = 953;

/// A set declares more events than `EVENT_LIMIT`.
pub const TOO_MANY_EVENTS: u16 = 954;
