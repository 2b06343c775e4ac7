//! A library that has what the machine needs, and nothing else.

/// Its classes, with java/lang/invoke/MethodHandle, which folders with method handles and dynamic calls need.
pub(crate) const LIBRARY: [&str; 19] = [
    "public java/lang/Object - / method public <init> ()V / method protected+native clone ()Ljava/lang/Object; / method protected finalize ()V / method public+native hashCode ()I",
    "public+interface java/io/Serializable Object",
    "public+interface java/lang/Cloneable Object",
    "public+final java/lang/Class Object",
    "public+final java/lang/String Object",
    "public java/lang/Throwable Object / method public <init> ()V",
    "public java/lang/AbstractMethodError java/lang/Throwable",
    "public java/lang/ArithmeticException java/lang/Throwable",
    "public java/lang/ArrayIndexOutOfBoundsException java/lang/Throwable",
    "public java/lang/ArrayStoreException java/lang/Throwable",
    "public java/lang/ClassCastException java/lang/Throwable",
    "public java/lang/IllegalAccessError java/lang/Throwable",
    "public java/lang/IllegalMonitorStateException java/lang/Throwable",
    "public java/lang/IncompatibleClassChangeError java/lang/Throwable",
    "public java/lang/NegativeArraySizeException java/lang/Throwable",
    "public java/lang/NullPointerException java/lang/Throwable",
    "public java/lang/invoke/MethodHandle Object / method public+native invoke ([Ljava/lang/Object;)Ljava/lang/Object; / method public+native invokeExact ([Ljava/lang/Object;)Ljava/lang/Object;",
    "public+final java/lang/invoke/MethodType Object",
    "public lib/Open Object / field protected+static shared I / field protected mine I / field private secret I / method protected <init> ()V / method protected call ()V / method protected+static all ()V / method public+final last ()V / method - near ()V",
];
