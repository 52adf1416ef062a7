//! The constructs of Eiffel and of other languages that aren't here, and what is written in their place.
//!
//! docs/users/COMING_FROM.md has the same table, which `.ci/documents` writes there. Each line has, with tabs
//! between, the spellings of a construct, by a word or the characters that it begins with, and last what is written
//! in its place.

/// Constructs that begin with these characters. Of those with a common beginning the longest comes first.
pub const SIGNS: &str = "\
()\ta call without actuals is the name alone, as `f`
==\t===\t`=` compares, and `:=` assigns
=>\t->\tthere are no arrows: a routine's body is `do .. end`
!=\t<>\t`/=` says that two values differ
:=\t`x := e` is an instruction of a body, for a variable of this object or routine; another object's attribute is set by a procedure of its class; `=` compares
=\t`:=` assigns, and `=` compares two values, which are no comparisons themselves. A constant is a function: `c: INTEGER do Result := 1 end`
++\t+=\t-=\t`i := i + 1` adds to a variable
<<\t[\t]\tthere are no arrays and no generic classes: a list is a class of your own with an attribute `next: detachable ..`
|..|\tthere are no intervals: a loop counts by `i := i + 1`, in `from .. until .. loop .. end`
&&\t&\t`and then` asks the second where the first holds, and `and` asks both
||\t|\t`or else` asks the second where the first fails, and `or` asks both
/*\t#\t//\ta comment begins with `--` and ends with its line
'\t`\tthere are no characters: use an INTEGER, or a text in `print (\"..\")`
\"\ta text stands in `print (\"..\")` alone, and is no value
create {any}\tcreate {none}\ta `create` list names procedures alone: `create make`
create {\t`create x` makes an object for a variable of the wanted class: declare it under `local`
require else\tensure then\ta redefinition keeps the contract that it inherits, and writes none
{\twhat stands together is put between words: `do .. end`, `then .. end`, `loop .. end`
/\t`//` divides INTEGERs, and there are no reals
%\t`\\\\` gives the remainder of a division
^\ta function with a loop gives a power
~\t`=` compares INTEGERs, BOOLEANs and references, and a function of your own compares objects
!\t`not` gives the opposite";

/// Constructs that a word shows, which has no other use in its language.
pub const WORDS: &str = "\
across\twhile\tfor\tforeach\ta loop is `from .. until .. loop .. end`, which ends where the condition behind `until` holds
variant\tbreak\tcontinue\ta loop has a condition behind `until` alone: no variant, no invariant and no other way out
inspect\twhen\tswitch\tcase\telif\telsif\tseveral cases are `if .. then .. elseif .. then .. else .. end`
return\ta function gives what `Result` holds at its end: write `Result := ..`
rescue\tretry\ttry\tcatch\tthrow\traise\texcept\ta failure ends the handler and isn't caught: ask before, by a precondition or an `if`
once\twrite `do`, and keep the value in an attribute
agent\tlambda\tprocedure\tpredicate\tthere are no agents: a feature of a class of your own does what is wanted, and heirs redefine it
like\ta type names its class, as `x: C`
deferred\tabstract\tinterface\ta class has no mark, and each routine a body, which may be empty to be redefined: `f do end`
expanded\tfrozen\ta class has no mark
external\talias\tassign\tattribute\ta routine is `f (..) do .. end`, and an attribute `x: T`, which a procedure of its class sets
rename\tundefine\texport\tselect\tprecursor\tsuper\t`redefine` alone stands under a parent, and what is redefined isn't called: give it a name of its own
debug\twrite `if`, over an attribute of your own
new\tcreation\t`create x` makes an object, or `create x.make` by a procedure of the class's `create` list
var\tlet\tconst\tval\ta variable is declared before the body: `local x: INTEGER do .. end`
def\tfun\tfunc\tfn\tfunction\tsub\tmethod\ta routine is `f (x: INTEGER): INTEGER do .. end`, under `feature`
public\tprivate\tprotected\tstatic\t`feature` begins what all may call, and `feature {NONE}` what is called without a target
extends\timplements\t`inherit` names the parent
import\tinclude\tusing\tpackage\tnamespace\tmodule\tthe files of a system are all named on the command line
io\tprintf\tprintln\tputs\twriteln\tput_string\tput_integer\tnew_line\t`print` takes an INTEGER, a BOOLEAN or a text, whose `%N` ends a line: `print (\"..%N\")`";

/// Constructs that are shown by a name, if nothing is declared with it.
pub const NAMES: &str = "\
out\tto_string\t`print` takes an INTEGER or a BOOLEAN as it is
is_equal\tequal\ttwin\tcopy\tclone\tdefault_create\tgenerating_type\tANY has no feature but `print`: declare one in the class
string\tstring_8\tstring_32\tstr\ta text stands in `print (\"..\")` alone, and is no value
character\tcharacter_8\tcharacter_32\tchar\tthere are no characters: use an INTEGER, or a text in `print (\"..\")`
real\treal_32\treal_64\tdouble\tfloat\tthere are no reals: INTEGER has 64 bits
array\tarrayed_list\tlist\tlinked_list\thash_table\ttuple\tvector\tmap\tthere are no arrays and no generic classes: a list is a class of your own with an attribute `next: detachable ..`
int\tlong\tinteger_8\tinteger_16\tinteger_32\tinteger_64\tnatural\tnatural_32\tnatural_64\tINTEGER is the type of whole numbers
bool\tBOOLEAN is the type of `True` and `False`
null\tnil\tnullptr\t`Void` is the reference to no object
this\tself\t`Current` is the object that runs the routine
async\tawait\tspawn\tthread\tsynchronized\tmutex\tlock\tan object that `create x` makes for `x: separate C` has a handler of its own, and `separate x as y do .. end` reserves it";
