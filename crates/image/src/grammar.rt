// The grammar of the contract image as a table: where each kind may stand, and what is due in it.
ghost use Rattle.std.specs.Prelude.{◌≡◌, not, ◌≤◌, ◌<◌, ltb, get_or};
ghost use Rattle.rules.specs.Grammar.{class_of};
ghost use Rattle.rules.specs.Check.{ended};
ghost use Rattle.image.specs.Rows.{off, inner, further};

// What is due at a place: no more, a record of its own, a List, or a record of a List.
pub const NOTHING: usize = 0;

pub const CONTRACT: usize = 1;

pub const NAME: usize = 2;

pub const FLAG: usize = 3;

pub const OP: usize = 4;

pub const EXPRESSION: usize = 5;

pub const RETURNED: usize = 6;

pub const STORAGE: usize = 7;

pub const STRUCTS: usize = 8;

pub const FUNCTIONS: usize = 9;

pub const FIELDS: usize = 10;

pub const PARAMS: usize = 11;

pub const RESULT: usize = 12;

pub const BODY: usize = 13;

pub const ELSE: usize = 14;

pub const INITS: usize = 15;

pub const ARGUMENTS: usize = 16;

pub const EMITTED: usize = 17;

pub const STORAGE_FIELD: usize = 18;

pub const STRUCT: usize = 19;

pub const FUNCTION: usize = 20;

pub const STRUCT_FIELD: usize = 21;

pub const PARAM: usize = 22;

pub const RESULT_NAME: usize = 23;

pub const STATEMENT: usize = 24;

pub const INIT: usize = 25;

pub const ARGUMENT: usize = 26;

pub const VALUE: usize = 27;

// The parts of a record as one number, five bits a part, the first lowest.
const SECOND: usize = 32;

const THIRD: usize = 1024;

const FOURTH: usize = 32768;

const FIFTH: usize = 1048576;

pub const CONTRACT_PARTS: usize = NAME + SECOND * STORAGE + THIRD * STRUCTS + FOURTH * FUNCTIONS;

const FIELD_PARTS: usize = NAME + SECOND * NAME;

const STRUCT_PARTS: usize = NAME + SECOND * FIELDS;

const FUNCTION_PARTS: usize = NAME
    + SECOND * PARAMS
    + THIRD * RESULT
    + FOURTH * FLAG
    + FIFTH * BODY;

const NAMED: usize = NAME + SECOND * EXPRESSION;

const MAPPING_WRITE: usize = NAME + SECOND * EXPRESSION + THIRD * EXPRESSION;

const IF: usize = EXPRESSION + SECOND * BODY + THIRD * ELSE;

const WHILE: usize = EXPRESSION + SECOND * BODY;

const FOR: usize = NAME + SECOND * EXPRESSION + THIRD * EXPRESSION + FOURTH * BODY;

const EMIT: usize = NAME + SECOND * EMITTED;

const FIELD_ACCESS: usize = EXPRESSION + SECOND * NAME;

const STRUCT_LITERAL: usize = NAME + SECOND * INITS;

const BINARY: usize = EXPRESSION + SECOND * OP + THIRD * EXPRESSION;

const CALL: usize = NAME + SECOND * ARGUMENTS;

// The parts stand above the 32 bits that say where a kind may stand.
pub const PARTS: usize = 4294967296;

// Bit d: the kind may stand where d is due.
const AT_CONTRACT: usize = 1 << CONTRACT;

const AT_NAME: usize = (1 << NAME) + (1 << RESULT_NAME);

const AT_FLAG: usize = 1 << FLAG;

const AT_OP: usize = 1 << OP;

// The Lists' dues are the bits from STORAGE to EMITTED.
const AT_LIST: usize = (1 << STORAGE_FIELD) - (1 << STORAGE);

const AT_FIELD: usize = (1 << STORAGE_FIELD) + (1 << STRUCT_FIELD) + (1 << PARAM);

const AT_STRUCT: usize = 1 << STRUCT;

const AT_FUNCTION: usize = 1 << FUNCTION;

const AT_INIT: usize = 1 << INIT;

const AT_STATEMENT: usize = 1 << STATEMENT;

const AT_EXPRESSION: usize = (1 << EXPRESSION) + (1 << RETURNED) + (1 << ARGUMENT) + (1 << VALUE);

// No bound of its own: no image has so many records.
pub const MANY: usize = 65536;

// A row of each kind to 71: where it may stand, and above it its parts (of a List 1). Then a row of each due to 17: of a List what it
// holds, and above it how many.
pub const TABLE: [usize; 90] = [
    // Name, List, Flag, Op.
    0,
    AT_NAME,
    AT_LIST + PARTS,
    AT_FLAG,
    AT_OP,
    0,
    0,
    0,
    0,
    0,
    0,
    0,
    0,
    0,
    0,
    0,
    // From 16: Contract, Field, Struct, Function, Init.
    AT_CONTRACT + PARTS * CONTRACT_PARTS,
    AT_FIELD + PARTS * FIELD_PARTS,
    AT_STRUCT + PARTS * STRUCT_PARTS,
    AT_FUNCTION + PARTS * FUNCTION_PARTS,
    AT_INIT + PARTS * NAMED,
    0,
    0,
    0,
    0,
    0,
    0,
    0,
    0,
    0,
    0,
    0,
    // From 32: Let, Constrain, Assign, StorageWrite, MappingWrite, If, While, For, Return, Emit, Expr.
    AT_STATEMENT + PARTS * NAMED,
    AT_STATEMENT + PARTS * EXPRESSION,
    AT_STATEMENT + PARTS * NAMED,
    AT_STATEMENT + PARTS * NAMED,
    AT_STATEMENT + PARTS * MAPPING_WRITE,
    AT_STATEMENT + PARTS * IF,
    AT_STATEMENT + PARTS * WHILE,
    AT_STATEMENT + PARTS * FOR,
    AT_STATEMENT + PARTS * RETURNED,
    AT_STATEMENT + PARTS * EMIT,
    AT_STATEMENT + PARTS * EXPRESSION,
    0,
    0,
    0,
    0,
    0,
    0,
    0,
    0,
    0,
    0,
    0,
    0,
    0,
    0,
    0,
    0,
    0,
    0,
    0,
    0,
    0,
    // From 64: Int, Ident, StorageRead, MappingRead, FieldAccess, StructLiteral, Binary, Call.
    AT_EXPRESSION,
    AT_EXPRESSION + PARTS * NAME,
    AT_EXPRESSION + PARTS * NAME,
    AT_EXPRESSION + PARTS * NAMED,
    AT_EXPRESSION + PARTS * FIELD_ACCESS,
    AT_EXPRESSION + PARTS * STRUCT_LITERAL,
    AT_EXPRESSION + PARTS * BINARY,
    AT_EXPRESSION + PARTS * CALL,
    // From 72: what each List holds.
    0,
    0,
    0,
    0,
    0,
    0,
    0,
    STORAGE_FIELD + PARTS * 256,
    STRUCT + PARTS * 64,
    FUNCTION + PARTS * 256,
    STRUCT_FIELD + PARTS * 64,
    PARAM + PARTS * MANY,
    RESULT_NAME + PARTS,
    STATEMENT + PARTS * MANY,
    STATEMENT + PARTS * MANY,
    INIT + PARTS * 64,
    ARGUMENT + PARTS * 64,
    VALUE + PARTS * MANY,
];

// A kind may not stand where d is due.
pub fn not_due(t: &[usize; 90], d: usize, kind: usize) -> bool
    requires { d < 32 }
    ensures { result ≡ off t.now d kind }
{
    if 72 <= kind {
        return true;
    }
    (t[kind] >> d) & 1 == 0
}

// It has no parts.
pub fn is_leaf(t: &[usize; 90], kind: usize) -> bool
    requires { kind < 72 }
    ensures { result ≡ ltb (get_or t.now kind 0) 4294967296 }
{
    t[kind] < PARTS
}

// What is due in a record of a kind that stands where d was due.
pub fn dues_of(t: &[usize; 90], d: usize, kind: usize) -> usize
    requires { (kind < 72) × (kind ≡ 2 → d < 18) }
    ensures { result ≡ inner t.now d kind }
{
    if kind == 2 {
        t[72 + d]
    } else {
        t[kind] / PARTS
    }
}

// What is due after the first of them, d: in a List one less.
pub fn after_first(d: usize, dues: usize) -> usize
    requires { 18 ≤ d → 4294967296 ≤ dues }
    ensures { result ≡ further d dues }
{
    if STORAGE_FIELD <= d {
        dues - PARTS
    } else {
        dues / 32
    }
}

// What may be left off: nothing, a record of a List, what a Return returns, an If's else.
fn may_end(d: usize) -> bool
    ensures { result ≡ not (class_of d).must }
{
    if STORAGE_FIELD <= d {
        return true;
    }
    if d == NOTHING {
        return true;
    }
    if d == RETURNED {
        return true;
    }
    d == ELSE
}

// No byte is left, and none is due.
pub fn is_ended(due: usize, p: usize, end: usize) -> bool
    ensures { result ≡ ended due p end }
{
    if p == end { may_end(due) } else { false }
}
