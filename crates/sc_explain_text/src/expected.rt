//! What may be at a place at which no system goes on.

use crate::beginning::Beginning;
use crate::lines::Lines;

/// What is tried, a line each: its name, a tab, and one of its tokens.
const TOKENS: &str = "\
a name\tx
an integer\t1
a string\t\"\"
`and`\tand
`as`\tas
`attached`\tattached
`check`\tcheck
`class`\tclass
`create`\tcreate
`Current`\tcurrent
`deferred`\tdeferred
`detachable`\tdetachable
`do`\tdo
`else`\telse
`elseif`\telseif
`end`\tend
`ensure`\tensure
`expanded`\texpanded
`False`\tfalse
`feature`\tfeature
`from`\tfrom
`frozen`\tfrozen
`if`\tif
`implies`\timplies
`indexing`\tindexing
`inherit`\tinherit
`invariant`\tinvariant
`is`\tis
`local`\tlocal
`loop`\tloop
`note`\tnote
`not`\tnot
`old`\told
`or`\tor
`redefine`\tredefine
`require`\trequire
`Result`\tresult
`separate`\tseparate
`then`\tthen
`True`\ttrue
`until`\tuntil
`Void`\tvoid
`xor`\txor
`:=`\t:=
`=`\t=
`/=`\t/=
`<`\t<
`<=`\t<=
`>`\t>
`>=`\t>=
`+`\t+
`-`\t-
`*`\t*
`//`\t//
`\\\\`\t\\\\
`.`\t.
`,`\t,
`:`\t:
`;`\t;
`?`\t?
`!`\t!
`(`\t(
`)`\t)
`{`\t{
`}`\t}";

/// Adds a line with the tokens that may follow a beginning, if it is short enough to try them all.
pub fn push_expected(lines: &mut Lines, beginning: &Beginning) {
    if beginning.is_short() {
        push_all_expected(lines, beginning, TOKENS)
    }
}

/// Adds a line with those of these tokens that may follow a beginning.
fn push_all_expected(lines: &mut Lines, beginning: &Beginning, tokens: &str) {
    let mut is_first = true;
    for row in tokens.split('\n') {
        if let Some((name, token)) = row.split_once('\t')
            && beginning.goes_on(lines, token, "")
        {
            let template = if is_first {
                "help: here may stand ~"
            } else {
                ", ~"
            };
            lines.fill_name(template, name);
            is_first = false;
        }
    }
    if !is_first {
        lines.push("\n")
    }
}
