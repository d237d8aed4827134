//! Texts of modules.

/// A module of one function, on one line.
pub const INC: &str =
    "\"builtin.module\"() ({ \"func.func\"() <{function_type = (i32) -> i32, sym_name = \"inc\"}> ({ ^bb0(%a: i32): %o = \"arith.constant\"() <{value = 1 : i32}> : () -> i32 %s = \"arith.addi\"(%a, %o) <{overflowFlags = #arith.overflow<none>}> : (i32, i32) -> i32 \"func.return\"(%s) : (i32) -> () }) : () -> () }) : () -> ()";

/// The same in the layout.
pub const INC_PRINTED: &str = "\"builtin.module\"() ({
  \"func.func\"() <{function_type = (i32) -> i32, sym_name = \"inc\"}> ({
  ^bb0(%arg0: i32):
    %0 = \"arith.constant\"() <{value = 1 : i32}> : () -> i32
    %1 = \"arith.addi\"(%arg0, %0) <{overflowFlags = #arith.overflow<none>}> : (i32, i32) -> i32
    \"func.return\"(%1) : (i32) -> ()
  }) : () -> ()
}) : () -> ()
";

/// The same without its module, with other names, comments and locations, and what belongs to an operation among its attributes.
pub const INC_ALONE: &str = "// one more
\"func.func\"() ({
^entry(%a: i32 loc(unknown)):
  %one = \"arith.constant\"() {value = 1 : i32} : () -> i32 loc(\"a.mlir\":1:2)
  %s = \"arith.addi\"(%a, %one) {overflowFlags = #arith.overflow<none>} : (i32, i32) -> i32
  \"func.return\"(%s) : (i32) -> ()
}) {sym_name = \"inc\", function_type = (i32) -> i32} : () -> () loc(unknown)
";

/// The same behind the pass.
pub const INC_CONVERTED: &str = "\"builtin.module\"() ({
  \"func.func\"() <{function_type = (i32) -> i32, sym_name = \"inc\"}> ({
  ^bb0(%arg0: i32):
    %0 = \"llvm.mlir.constant\"() <{value = 1 : i32}> : () -> i32
    %1 = \"llvm.add\"(%arg0, %0) <{overflowFlags = #llvm.overflow<none>}> : (i32, i32) -> i32
    \"func.return\"(%1) : (i32) -> ()
  }) : () -> ()
}) : () -> ()
";

/// Three functions.
pub const THREE: &str = "\"builtin.module\"() ({
  \"func.func\"() <{function_type = () -> i32, sym_name = \"one\"}> ({
    %0 = \"arith.constant\"() <{value = 1 : i32}> : () -> i32
    \"func.return\"(%0) : (i32) -> ()
  }) : () -> ()
  \"func.func\"() <{function_type = (i32) -> i32, sym_name = \"same\"}> ({
  ^bb0(%arg0: i32):
    \"func.return\"(%arg0) : (i32) -> ()
  }) : () -> ()
  \"func.func\"() <{function_type = (i32) -> i32, sym_name = \"twice\"}> ({
  ^bb0(%arg0: i32):
    %0 = \"arith.addi\"(%arg0, %arg0) : (i32, i32) -> i32
    \"func.return\"(%0) : (i32) -> ()
  }) : () -> ()
}) : () -> ()
";

/// The same behind the pass.
pub const THREE_CONVERTED: &str = "\"builtin.module\"() ({
  \"func.func\"() <{function_type = () -> i32, sym_name = \"one\"}> ({
    %0 = \"llvm.mlir.constant\"() <{value = 1 : i32}> : () -> i32
    \"func.return\"(%0) : (i32) -> ()
  }) : () -> ()
  \"func.func\"() <{function_type = (i32) -> i32, sym_name = \"same\"}> ({
  ^bb0(%arg0: i32):
    \"func.return\"(%arg0) : (i32) -> ()
  }) : () -> ()
  \"func.func\"() <{function_type = (i32) -> i32, sym_name = \"twice\"}> ({
  ^bb0(%arg0: i32):
    %0 = \"llvm.add\"(%arg0, %arg0) : (i32, i32) -> i32
    \"func.return\"(%0) : (i32) -> ()
  }) : () -> ()
}) : () -> ()
";

/// A function of an operation that the pass has no pattern for, in the layout.
pub const ROUNDED: &str = "\"builtin.module\"() ({
  \"func.func\"() <{function_type = (i32) -> i32, sym_name = \"r\"}> ({
  ^bb0(%arg0: i32):
    %0 = \"arith.ceildivsi\"(%arg0, %arg0) : (i32, i32) -> i32
    \"func.return\"(%0) : (i32) -> ()
  }) : () -> ()
}) : () -> ()
";

/// What is told of it.
pub const ROUNDED_TOLD: &str =
    "error: @r: convert-arith-to-llvm: operation 1 'arith.ceildivsi' is not legalised
note: patterns with this root: 0
";

/// Aliases, several results, regions, labels, and attributes of all kinds.
pub const KINDS: &str = "#width = array<i8: 255, -1>
!pair = !llvm.struct<(i32, !llvm.ptr)>
\"func.func\"() <{sym_name = \"f\", function_type = (!pair) -> (), \"odd name\" = #width}> ({
^bb0(%p: !pair):
  %t:2 = \"t.two\"(%p) <{flag, z = true, a = [-5 : i8, @\"a b\", @c, #t.b<x, y>], b = {k = \"a\\tb\", d = memref<2x?xindex>, e = () -> i32}}> ({
    \"t.in\"() : () -> ()
  }, {
  }) {unit} : (!pair) -> (i1, i32)
  \"cf.br\"()[^last] : () -> ()
^last:
  \"t.use\"(%t#1, %t) : (i32, i1) -> ()
}) : () -> ()
";

/// The same in the layout.
pub const KINDS_PRINTED: &str = "\"builtin.module\"() ({
  \"func.func\"() <{function_type = (!llvm.struct<(i32, ptr)>) -> (), \"odd name\" = array<i8: -1, -1>, sym_name = \"f\"}> ({
  ^bb0(%arg0: !llvm.struct<(i32, ptr)>):
    %0:2 = \"t.two\"(%arg0) <{a = [-5 : i8, @\"a b\", @c, #t.b<x, y>], b = {d = memref<2x?xindex>, e = () -> i32, k = \"a\\09b\"}, flag, z = true}> ({
      \"t.in\"() : () -> ()
    }, {
    }) {unit} : (!llvm.struct<(i32, ptr)>) -> (i1, i32)
    \"cf.br\"()[^bb1] : () -> ()
  ^bb1:
    \"t.use\"(%0#1, %0#0) : (i32, i1) -> ()
  }) : () -> ()
}) : () -> ()
";

/// Functions with loops, calls and memory, as mlir-opt prints them.
pub const SUM: &str = "\"builtin.module\"() ({
  \"func.func\"() <{function_type = (i32) -> i32, sym_name = \"tick\", sym_visibility = \"private\"}> ({
  }) : () -> ()
  \"func.func\"() <{function_type = (memref<?xi32>, index) -> (), sym_name = \"fill\"}> ({
  ^bb0(%arg4: memref<?xi32>, %arg5: index):
    %10 = \"arith.constant\"() <{value = 0 : index}> : () -> index
    %11 = \"arith.constant\"() <{value = 1 : index}> : () -> index
    \"scf.for\"(%10, %arg5, %11) ({
    ^bb0(%arg6: index):
      %12 = \"arith.index_cast\"(%arg6) : (index) -> i32
      %13 = \"func.call\"(%12) <{callee = @tick}> : (i32) -> i32
      %14 = \"arith.addi\"(%13, %12) <{overflowFlags = #arith.overflow<nsw>}> : (i32, i32) -> i32
      \"memref.store\"(%14, %arg4, %arg6) : (i32, memref<?xi32>, index) -> ()
      \"scf.yield\"() : () -> ()
    }) : (index, index, index) -> ()
    \"func.return\"() : () -> ()
  }) : () -> ()
  \"func.func\"() <{function_type = (index) -> i32, sym_name = \"sum\"}> ({
  ^bb0(%arg0: index):
    %0 = \"arith.constant\"() <{value = 0 : index}> : () -> index
    %1 = \"arith.constant\"() <{value = 1 : index}> : () -> index
    %2 = \"arith.constant\"() <{value = 0 : i32}> : () -> i32
    %3 = \"memref.alloc\"(%arg0) <{operandSegmentSizes = array<i32: 1, 0>}> : (index) -> memref<?xi32>
    \"func.call\"(%3, %arg0) <{callee = @fill}> : (memref<?xi32>, index) -> ()
    %4:2 = \"scf.for\"(%0, %arg0, %1, %2, %2) ({
    ^bb0(%arg1: index, %arg2: i32, %arg3: i32):
      %6 = \"memref.load\"(%3, %arg1) : (memref<?xi32>, index) -> i32
      %7 = \"arith.addi\"(%arg2, %6) <{overflowFlags = #arith.overflow<none>}> : (i32, i32) -> i32
      %8 = \"arith.cmpi\"(%6, %arg3) <{predicate = 4 : i64}> : (i32, i32) -> i1
      %9 = \"scf.if\"(%8) ({
        \"scf.yield\"(%6) : (i32) -> ()
      }, {
        \"scf.yield\"(%arg3) : (i32) -> ()
      }) : (i1) -> i32
      \"scf.yield\"(%7, %9) : (i32, i32) -> ()
    }) : (index, index, index, i32, i32) -> (i32, i32)
    \"memref.dealloc\"(%3) : (memref<?xi32>) -> ()
    %5 = \"arith.subi\"(%4#0, %4#1) <{overflowFlags = #arith.overflow<none>}> : (i32, i32) -> i32
    \"func.return\"(%5) : (i32) -> ()
  }) : () -> ()
}) : () -> ()

";

/// The same with the numbers of the layout.
pub const SUM_PRINTED: &str = "\"builtin.module\"() ({
  \"func.func\"() <{function_type = (i32) -> i32, sym_name = \"tick\", sym_visibility = \"private\"}> ({
  }) : () -> ()
  \"func.func\"() <{function_type = (memref<?xi32>, index) -> (), sym_name = \"fill\"}> ({
  ^bb0(%arg0: memref<?xi32>, %arg1: index):
    %0 = \"arith.constant\"() <{value = 0 : index}> : () -> index
    %1 = \"arith.constant\"() <{value = 1 : index}> : () -> index
    \"scf.for\"(%0, %arg1, %1) ({
    ^bb0(%arg2: index):
      %2 = \"arith.index_cast\"(%arg2) : (index) -> i32
      %3 = \"func.call\"(%2) <{callee = @tick}> : (i32) -> i32
      %4 = \"arith.addi\"(%3, %2) <{overflowFlags = #arith.overflow<nsw>}> : (i32, i32) -> i32
      \"memref.store\"(%4, %arg0, %arg2) : (i32, memref<?xi32>, index) -> ()
      \"scf.yield\"() : () -> ()
    }) : (index, index, index) -> ()
    \"func.return\"() : () -> ()
  }) : () -> ()
  \"func.func\"() <{function_type = (index) -> i32, sym_name = \"sum\"}> ({
  ^bb0(%arg0: index):
    %0 = \"arith.constant\"() <{value = 0 : index}> : () -> index
    %1 = \"arith.constant\"() <{value = 1 : index}> : () -> index
    %2 = \"arith.constant\"() <{value = 0 : i32}> : () -> i32
    %3 = \"memref.alloc\"(%arg0) <{operandSegmentSizes = array<i32: 1, 0>}> : (index) -> memref<?xi32>
    \"func.call\"(%3, %arg0) <{callee = @fill}> : (memref<?xi32>, index) -> ()
    %4:2 = \"scf.for\"(%0, %arg0, %1, %2, %2) ({
    ^bb0(%arg1: index, %arg2: i32, %arg3: i32):
      %5 = \"memref.load\"(%3, %arg1) : (memref<?xi32>, index) -> i32
      %6 = \"arith.addi\"(%arg2, %5) <{overflowFlags = #arith.overflow<none>}> : (i32, i32) -> i32
      %7 = \"arith.cmpi\"(%5, %arg3) <{predicate = 4 : i64}> : (i32, i32) -> i1
      %8 = \"scf.if\"(%7) ({
        \"scf.yield\"(%5) : (i32) -> ()
      }, {
        \"scf.yield\"(%arg3) : (i32) -> ()
      }) : (i1) -> i32
      \"scf.yield\"(%6, %8) : (i32, i32) -> ()
    }) : (index, index, index, i32, i32) -> (i32, i32)
    \"memref.dealloc\"(%3) : (memref<?xi32>) -> ()
    %9 = \"arith.subi\"(%4#0, %4#1) <{overflowFlags = #arith.overflow<none>}> : (i32, i32) -> i32
    \"func.return\"(%9) : (i32) -> ()
  }) : () -> ()
}) : () -> ()
";
