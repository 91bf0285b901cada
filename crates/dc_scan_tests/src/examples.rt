// Texts that several tests run on.

/// The text of a function that does nothing.
pub const EMPTY_FUNCTION: &str = "dcc 1
function f void
body f 0 0
return
end
body .start 0 0
statics
objects 4
push
call - f
pop
return
end
";

/// The text of a function with a contract that writes a variable.
pub const SET: &str = "dcc 1
function set void s32
static g 4
body set 1 3
local 1 4 zero
init s32 (reg 1) (reg 0)
set 2 (add s32 (load s32 (reg 1)) (s32 1))
covers set.assigns.1 (obj 2) (u64 4)
store s32 (obj 2) (reg 2)
return
end
body .start 0 1
statics
objects 4
draw 0 s32
seen
require (lt s32 (reg 0) (s32 100))
push
range 1 (s32 1) (obj 2) (u64 4)
call - set (reg 0)
seen
check set.postcondition.1 (eq s32 (load s32 (obj 2)) (add s32 (reg 0) (s32 1)))
pop
return
end
";

/// The text of a function that promises its result.
pub const RESULT: &str = "dcc 1
function f s32 s32
body f 1 4
local 1 4 zero
init s32 (reg 1) (reg 0)
set 2 (add s32 (load s32 (reg 1)) (s32 1))
covers f.assigns.1 (reg 1) (u64 4)
store s32 (reg 1) (reg 2)
set 3 (load s32 (reg 1))
return (reg 3)
trap
end
body .start 0 2
statics
objects 4
draw 0 s32
push
call 1 f (reg 0)
seen
check f.postcondition.1 (eq s32 (reg 1) (add s32 (reg 0) (s32 1)))
pop
return (reg 1)
end
";
